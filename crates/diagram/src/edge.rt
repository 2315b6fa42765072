// Reading an edge: its top, its cofactors; multiples and sums of edges.
ghost use Rattle.std.specs.Prelude.{◌≡◌, ◌≤◌, ◌<◌};
ghost use Rattle.field.specs.Weight.{modulus};
ghost use Rattle.diagram.specs.Tensor.{index_count};
ghost use Rattle.diagram.specs.Meaning.{Valid};
ghost use Rattle.diagram.specs.Store.{Sound, level_of};
ghost use Rattle.diagram.specs.Edge.{IsMultiple, IsSum, IsCofactor, CofactorRequires};
ghost use Rattle.diagram.specs.Diagram.{IsSound, IsEdge, level, Fixable, Fixed};

use crate::diagram::Diagram;
use crate::make::State;
use crate::node;
use crate::node::{Edge, INDICES, Index, Weight};

// w times e.
pub(crate) fn times(w: Weight, e: Edge) -> Edge
    requires { (w < modulus) × (e.weight < modulus) }
    ensures { IsMultiple w e result }
{
    Edge {
        weight: field::mul(w, e.weight),
        node: e.node,
    }
}

// a and b, which lead to one node, added.
pub(crate) fn added(a: Edge, b: Edge) -> Edge
    requires { (a.weight < modulus) × (b.weight < modulus) }
    ensures { IsSum a b result }
{
    let weight = field::add(a.weight, b.weight);
    if weight == 0 {
        return Edge::ZERO;
    }
    Edge {
        weight,
        node: a.node,
    }
}

// The index of the edge's node; the number of indices for a constant.
pub(crate) fn top(store: &[u8], s: State, a: Edge) -> Index
    requires { Sound store.now s × Valid s.count a }
    ensures { (result ≡ level_of store.now s a) × (result ≤ index_count) }
{
    if a.node == 0 {
        return INDICES;
    }
    node::read(store, a.node).index
}

// a with the index k fixed.
pub(crate) fn cofactor(store: &[u8], s: State, a: Edge, k: Index, high: bool) -> Edge
    requires { Sound store.now s × CofactorRequires store.now s a k }
    ensures { IsCofactor store.now s a k high result }
{
    if a.node == 0 {
        return a;
    }
    let x = node::read(store, a.node);
    if x.index != k {
        return a;
    }
    if high {
        return times(a.weight, x.high);
    }
    times(a.weight, x.low)
}

// The same for an edge of this diagram. (A store that is shared can be in no diagram: hence both.)
impl<'a> Diagram<'a> {
    pub(crate) fn top(&self, a: Edge) -> Index
        requires { IsSound self.now × IsEdge self.now a }
        ensures { (result ≡ level self.now a) × (result ≤ index_count) }
    {
        top(self.store, self.state, a)
    }

    pub(crate) fn cofactor(&self, a: Edge, k: Index, high: bool) -> Edge
        requires { IsSound self.now × Fixable self.now a k }
        ensures { Fixed self.now a k high result }
    {
        cofactor(self.store, self.state, a, k, high)
    }
}
