// The contraction of two tensors over a set of indices (document 01, cont).
ghost use Rattle.std.specs.Prelude.{◌≤◌, ◌<◌};
ghost use Rattle.field.specs.Weight.{modulus};
ghost use Rattle.diagram.specs.Tensor.{bits, masks, index_count};
ghost use Rattle.diagram.specs.Tally.{cont};
ghost use Rattle.diagram.specs.Operation.{high_step};
ghost use Rattle.diagram.specs.Contract.{ContractReduced, FactoredEnsures, cont_without, combine};
ghost use Rattle.diagram.specs.Diagram.{tensor, Ready, HighReady, Joinable, KeepsLoans, DoesCached};

use crate::cache::{Key, Op};
use crate::diagram::{Diagram, Full};
use crate::node::{Edge, Index, Mask, Weight};
use crate::{cache, edge, mask};

// The weights, times 2 for each member of m below k.
fn factored(v: Weight, w: Weight, m: Mask, k: Index) -> Weight
    requires { (v < modulus) × ((w < modulus) × (k ≤ index_count)) }
    ensures { FactoredEnsures v w m k result }
{
    let p = mask::factor(m, k);
    let u = field::mul(v, w);
    field::mul(p, u)
}

impl<'a> Diagram<'a> {
    #[cycle(contract)]
    pub fn contract(&mut self, a: Edge, b: Edge, m: Mask) -> Result<Edge, Full>
        requires { Ready self.old a b × (m < masks) }
        ensures loans { KeepsLoans self.old self.new }
        ensures does { DoesCached self.old self.new (cont (tensor self.old a) (tensor self.old b) (bits m)) result }
    {
        let v = a.weight;
        let w = b.weight;
        let zero = Edge::ZERO;
        if v == 0 {
            return Ok(zero);
        }
        if w == 0 {
            return Ok(zero);
        }
        // weights and members of S below both tops are taken out: multiples share an entry
        let k = self.lowest(a, b);
        let weight = factored(v, w, m, k);
        let rest = mask::from(m, k);
        let x = a.node;
        let y = b.node;
        // a constant, and no index left in S: a multiple of the other, nothing is put in
        if rest == 0 {
            if y == 0 {
                return Ok(Edge { weight, node: x });
            }
            if x == 0 {
                return Ok(Edge { weight, node: y });
            }
        }
        let reduced = Edge { weight: 1, node: x };
        let other = Edge { weight: 1, node: y };
        let e = self.contract_cached(reduced, other, rest)?;
        Ok(edge::times(weight, e))
    }

    // The contraction of edges of weight 1, not both constant: remembered, or worked out and remembered.
    // (Each operation for itself: operation.rt.)
    #[cycle(contract)]
    fn contract_cached(&mut self, a: Edge, b: Edge, m: Mask) -> Result<Edge, Full>
        requires { Ready self.old a b × ContractReduced a b m }
        ensures loans { KeepsLoans self.old self.new }
        ensures does { DoesCached self.old self.new (cont (tensor self.old a) (tensor self.old b) (bits m)) result }
    {
        let key = Key {
            op: Op::Contract,
            left: a.node,
            right: b.node,
            arg: m,
        };
        if let Some(e) = self.recall(key) {
            return Ok(e);
        }
        let e = self.contract_split(a, b, m)?;
        let epoch = self.state.epoch;
        cache::remember(self.cache, epoch, key, e);
        Ok(e)
    }

    // "L = cont(A0,B0,S')", and then the rest.
    #[cycle(contract)]
    fn contract_split(&mut self, a: Edge, b: Edge, m: Mask) -> Result<Edge, Full>
        requires { Ready self.old a b × ContractReduced a b m }
        ensures loans { KeepsLoans self.old self.new }
        ensures does { DoesCached self.old self.new (cont (tensor self.old a) (tensor self.old b) (bits m)) result }
    {
        let k = self.lowest(a, b);
        let rest = mask::without(m, k);
        let a0 = self.cofactor(a, k, false);
        let b0 = self.cofactor(b, k, false);
        let l = self.contract(a0, b0, rest)?;
        self.contract_high(a, b, m, k, l)
    }

    // "H = cont(A1,B1,S')", met with l, which is L.
    #[cycle(contract)]
    fn contract_high(&mut self, a: Edge, b: Edge, m: Mask, k: Index, l: Edge) -> Result<Edge, Full>
        requires { HighReady self.old a b k k l × (m < masks) }
        ensures loans { KeepsLoans self.old self.new }
        ensures does { DoesCached self.old self.new
            (high_step (cont_without k m) (combine k m) k (tensor self.old a) (tensor self.old b) (tensor self.old l))
            result }
    {
        let rest = mask::without(m, k);
        let a1 = self.cofactor(a, k, true);
        let b1 = self.cofactor(b, k, true);
        let h = self.contract(a1, b1, rest)?;
        self.combine(m, k, l, h)
    }

    // "the answer is sum(L,H) if k is in S, else join(k,L,H)"
    fn combine(&mut self, m: Mask, k: Index, l: Edge, h: Edge) -> Result<Edge, Full>
        requires { Ready self.old l h × Joinable self.old k l h }
        ensures loans { KeepsLoans self.old self.new }
        ensures does { DoesCached self.old self.new (combine k m (tensor self.old l) (tensor self.old h)) result }
    {
        if mask::has(m, k) {
            return self.sum(l, h);
        }
        self.join(k, l, h)
    }
}
