// The mask of the indices on which a tensor depends (document 02, request One): each node's is in its record.
ghost use Rattle.std.specs.Prelude.{◌≡◌, ◌<◌};
ghost use Rattle.diagram.specs.Tensor.{depends as dependsOn, index_count, masks};
ghost use Rattle.diagram.specs.Meaning.{Valid};
ghost use Rattle.diagram.specs.Store.{Sound, tensor_of};
ghost use Rattle.diagram.specs.Support.{support_mask};
ghost use Rattle.diagram.specs.Diagram.{IsSound, IsEdge, tensor};

use crate::diagram::Diagram;
use crate::make::State;
use crate::node::{Edge, Index, Mask};
use crate::{mask, node};

// The indices on which a's tensor depends.
pub fn support(store: &[u8], s: State, a: Edge) -> Mask
    requires { Sound store.now s × Valid s.count a }
    ensures { (result ≡ support_mask (tensor_of store.now s a)) × (result < masks) }
{
    // A constant, which depends on nothing.
    if a.node == 0 {
        return 0;
    }
    node::read(store, a.node).mask
}

// Does a's tensor depend on k (document 01, refusal 7)?
pub fn depends(store: &[u8], s: State, a: Edge, k: Index) -> bool
    requires { Sound store.now s × (Valid s.count a × (k < index_count)) }
    ensures { result ≡ dependsOn k (tensor_of store.now s a) }
{
    mask::has(support(store, s, a), k)
}

// The same for an edge of this diagram. (A store that is shared can be in no diagram: hence both.)
impl<'a> Diagram<'a> {
    pub fn support(&self, a: Edge) -> Mask
        requires { IsSound self.now × IsEdge self.now a }
        ensures { (result ≡ support_mask (tensor self.now a)) × (result < masks) }
    {
        support(self.store, self.state, a)
    }

    pub fn depends(&self, a: Edge, k: Index) -> bool
        requires { IsSound self.now × (IsEdge self.now a × (k < index_count)) }
        ensures { result ≡ dependsOn k (tensor self.now a) }
    {
        depends(self.store, self.state, a, k)
    }
}
