// A tensor's value at an assignment (document 01, at).
ghost use Rattle.field.specs.Field.{Represents};
ghost use Rattle.diagram.specs.Tensor.{value as valued};
ghost use Rattle.diagram.specs.Meaning.{Valid};
ghost use Rattle.diagram.specs.Store.{Sound, tensor_of};
ghost use Rattle.diagram.specs.Diagram.{IsSound, IsEdge, tensor};

use crate::diagram::Diagram;
use crate::make::State;
use crate::node::{Assignment, Edge, Weight};
use crate::{edge, mask};

// The weight at the assignment whose bit k is the value of index k, by walking down.
pub fn value(store: &[u8], s: State, a: Edge, v: Assignment) -> Weight
    requires { Sound store.now s × Valid s.count a }
    ensures { Represents result (valued (tensor_of store.now s a) v) }
{
    let mut e = a;
    // How many nodes there are shows only on the way, so no range has them.
    while e.node != 0 {
        let k = edge::top(store, s, e);
        let high = mask::has(v, k);
        e = edge::cofactor(store, s, e, k, high);
    }
    e.weight
}

impl<'a> Diagram<'a> {
    // The same for an edge of this diagram. (A store that is shared can be in no diagram: hence both.)
    pub fn value(&self, a: Edge, v: Assignment) -> Weight
        requires { IsSound self.now × IsEdge self.now a }
        ensures { Represents result (valued (tensor self.now a) v) }
    {
        value(self.store, self.state, a, v)
    }
}
