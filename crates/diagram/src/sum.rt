// The sum of two tensors (document 01, sum).
ghost use Rattle.diagram.specs.Tally.{sum as sums, join as joins};
ghost use Rattle.diagram.specs.Operation.{high_step};
ghost use Rattle.diagram.specs.Sum.{SumReduced};
ghost use Rattle.diagram.specs.Diagram.{tensor, Ready, HighReady, KeepsLoans, DoesCached};

use crate::cache::{Key, Op};
use crate::diagram::{Diagram, Full};
use crate::node::{Edge, Index};
use crate::{cache, edge};

impl<'a> Diagram<'a> {
    #[cycle(sum)]
    pub fn sum(&mut self, a: Edge, b: Edge) -> Result<Edge, Full>
        requires { Ready self.old a b }
        ensures loans { KeepsLoans self.old self.new }
        ensures does { DoesCached self.old self.new (sums (tensor self.old a) (tensor self.old b)) result }
    {
        let v = a.weight;
        let w = b.weight;
        if v == 0 {
            return Ok(b);
        }
        if w == 0 {
            return Ok(a);
        }
        let m = a.node;
        let n = b.node;
        if m == n {
            return Ok(edge::added(a, b));
        }
        // a's weight is taken out: multiples of one sum share an entry
        let i = field::inverse(v);
        let r = field::mul(i, w);
        let left = Edge { weight: 1, node: m };
        let right = Edge { weight: r, node: n };
        let e = self.sum_cached(left, right)?;
        Ok(edge::times(v, e))
    }

    // The sum of edges to different nodes, the first of weight 1: remembered, or worked out and remembered.
    // (Each operation for itself: operation.rt.)
    #[cycle(sum)]
    fn sum_cached(&mut self, a: Edge, b: Edge) -> Result<Edge, Full>
        requires { Ready self.old a b × SumReduced a b }
        ensures loans { KeepsLoans self.old self.new }
        ensures does { DoesCached self.old self.new (sums (tensor self.old a) (tensor self.old b)) result }
    {
        let key = Key {
            op: Op::Sum,
            left: a.node,
            right: b.node,
            arg: b.weight,
        };
        if let Some(e) = self.recall(key) {
            return Ok(e);
        }
        let e = self.sum_split(a, b)?;
        let epoch = self.state.epoch;
        cache::remember(self.cache, epoch, key, e);
        Ok(e)
    }

    // "join(k, sum(A0,B0), sum(A1,B1))": the low parts, and then the rest.
    #[cycle(sum)]
    fn sum_split(&mut self, a: Edge, b: Edge) -> Result<Edge, Full>
        requires { Ready self.old a b × SumReduced a b }
        ensures loans { KeepsLoans self.old self.new }
        ensures does { DoesCached self.old self.new (sums (tensor self.old a) (tensor self.old b)) result }
    {
        let k = self.lowest(a, b);
        let a0 = self.cofactor(a, k, false);
        let b0 = self.cofactor(b, k, false);
        let l = self.sum(a0, b0)?;
        self.sum_high(a, b, k, l)
    }

    // The high parts, joined to l, the sum of the low parts.
    #[cycle(sum)]
    fn sum_high(&mut self, a: Edge, b: Edge, k: Index, l: Edge) -> Result<Edge, Full>
        requires { HighReady self.old a b k k l }
        ensures loans { KeepsLoans self.old self.new }
        ensures does { DoesCached self.old self.new
            (high_step sums (joins k) k (tensor self.old a) (tensor self.old b) (tensor self.old l)) result }
    {
        let a1 = self.cofactor(a, k, true);
        let b1 = self.cofactor(b, k, true);
        let h = self.sum(a1, b1)?;
        self.join(k, l, h)
    }
}
