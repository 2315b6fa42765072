// Indices renamed to the ones before them: one (document 01, low), or a set together (document 02, request Two).
ghost use Rattle.std.specs.Prelude.{◌≡◌, false, ◌<◌};
ghost use Rattle.diagram.specs.Tensor.{bits, index_count, masks};
ghost use Rattle.diagram.specs.Tally.{low, join as joins};
ghost use Rattle.diagram.specs.Lows.{lower_in, lows as lows_of, clash as clashes};
ghost use Rattle.diagram.specs.Meaning.{Valid};
ghost use Rattle.diagram.specs.Store.{Sound, tensor_of};
ghost use Rattle.diagram.specs.Operation.{high_step};
ghost use Rattle.diagram.specs.Lower.{lows_first};
ghost use Rattle.diagram.specs.Diagram.{IsSound, IsEdge, tensor, Ready, HighReady, KeepsLoans, DoesCached};
ghost use Rattle.diagram.specs.Diagram.{MayLower, MayLowerSet, Lowers};

use crate::cache::{Key, Op};
use crate::diagram::{Diagram, Full};
use crate::make::State;
use crate::node::{Edge, Index, Mask};
use crate::{cache, edge, mask, support};

// Is there an index k of m that is not free to go, since a depends on k - 1, and k - 1 is not in m (refusal 7)?
pub fn clash(store: &[u8], s: State, a: Edge, m: Mask) -> bool
    requires { Sound store.now s × (Valid s.count a × (m < masks)) }
    ensures { result ≡ clashes (bits m) (tensor_of store.now s a) }
{
    let u = support::support(store, s, a);
    // Of the indices before those of m, the ones on which a depends: each has to be in m too.
    let taken = (m >> 1) & u;
    taken & m != taken
}

impl<'a> Diagram<'a> {
    // Index k is renamed k - 1: the set that has k alone.
    pub fn lower(&mut self, a: Edge, k: Index) -> Result<Edge, Full>
        requires { Ready self.old a a × MayLower self.old a k }
        ensures loans { KeepsLoans self.old self.new }
        ensures does { DoesCached self.old self.new (low k (tensor self.old a)) result }
    {
        self.lows(a, mask::power(k))
    }

    // Does an index of m clash, for an edge of this diagram? (A store that is shared can be in no diagram: hence both.)
    pub fn clash(&self, a: Edge, m: Mask) -> bool
        requires { IsSound self.now × (IsEdge self.now a × (m < masks)) }
        ensures { result ≡ clashes (bits m) (tensor self.now a) }
    {
        clash(self.store, self.state, a, m)
    }

    // Every index k of m is renamed k - 1, all at the same moment.
    #[cycle(lows)]
    pub fn lows(&mut self, a: Edge, m: Mask) -> Result<Edge, Full>
        requires { Ready self.old a a × MayLowerSet self.old a m }
        ensures loans { KeepsLoans self.old self.new }
        ensures does { DoesCached self.old self.new (lows_of (bits m) (tensor self.old a)) result }
    {
        let u = self.support(a);
        // a depends on no index of m: a itself.
        if m & u == 0 {
            return Ok(a);
        }
        let w = a.weight;
        let n = a.node;
        let reduced = Edge { weight: 1, node: n };
        let e = self.lows_cached(reduced, m)?;
        Ok(edge::times(w, e))
    }

    // The same for an edge of weight 1 to a node: remembered, or worked out and remembered.
    // (Each operation for itself: operation.rt.)
    #[cycle(lows)]
    fn lows_cached(&mut self, a: Edge, m: Mask) -> Result<Edge, Full>
        requires { Ready self.old a a × Lowers self.old a m }
        ensures loans { KeepsLoans self.old self.new }
        ensures does { DoesCached self.old self.new (lows_of (bits m) (tensor self.old a)) result }
    {
        let key = Key {
            op: Op::Lows,
            left: a.node,
            right: a.node,
            arg: m,
        };
        if let Some(e) = self.recall(key) {
            return Ok(e);
        }
        let e = self.lows_split(a, m)?;
        let epoch = self.state.epoch;
        cache::remember(self.cache, epoch, key, e);
        Ok(e)
    }

    // The low part, and then the rest.
    #[cycle(lows)]
    fn lows_split(&mut self, a: Edge, m: Mask) -> Result<Edge, Full>
        requires { Ready self.old a a × Lowers self.old a m }
        ensures loans { KeepsLoans self.old self.new }
        ensures does { DoesCached self.old self.new (lows_of (bits m) (tensor self.old a)) result }
    {
        let k = self.top(a);
        let a0 = self.cofactor(a, k, false);
        let l = self.lows(a0, m)?;
        self.lows_high(a, m, k, l)
    }

    // The high part, joined to l, the low part, where the top k goes.
    #[cycle(lows)]
    fn lows_high(&mut self, a: Edge, m: Mask, k: Index, l: Edge) -> Result<Edge, Full>
        requires { HighReady self.old a a k (lower_in (bits m) k) l × Lowers self.old a m }
        ensures loans { KeepsLoans self.old self.new }
        ensures does { DoesCached self.old self.new
            (high_step (lows_first (bits m)) (joins (lower_in (bits m) k)) k (tensor self.old a) (tensor self.old a)
            (tensor self.old l)) result }
    {
        let a1 = self.cofactor(a, k, true);
        let h = self.lows(a1, m)?;
        let j = lower_in(m, k);
        self.join(j, l, h)
    }
}

// Where index k goes.
fn lower_in(m: Mask, k: Index) -> Index
    requires { (k < index_count) × (bits m 0 ≡ false) }
    ensures { result ≡ lower_in (bits m) k }
{
    if mask::has(m, k) { k - 1 } else { k }
}
