// Joining two edges (document 01, join): the node is made normal, and the weight taken out goes to the edge.
ghost use Rattle.std.specs.Prelude.{◌<◌};
ghost use Rattle.diagram.specs.Tensor.{index_count};
ghost use Rattle.diagram.specs.Tally.{join as joins};
ghost use Rattle.diagram.specs.Diagram.{IsSound, IsEdge, tensor, MaskOfJoin, Joinable, KeepsCache, Does};

use crate::diagram::{Diagram, Full};
use crate::node::{Edge, Index, Mask};
use crate::{mask, normalise};

impl<'a> Diagram<'a> {
    // The mask of a node at k whose parts are l and h: k, and what they depend on.
    fn node_mask(&self, k: Index, l: Edge, h: Edge) -> Mask
        requires { IsSound self.now × ((k < index_count) × (IsEdge self.now l × IsEdge self.now h)) }
        ensures { MaskOfJoin self.now k l h result }
    {
        let low = self.support(l);
        let high = self.support(h);
        let own = mask::power(k);
        own | (low | high)
    }

    // The tensor that is l at 0 and h at 1 of the index k.
    pub fn join(&mut self, k: Index, l: Edge, h: Edge) -> Result<Edge, Full>
        requires { IsSound self.old × Joinable self.old k l h }
        ensures cache { KeepsCache self.old self.new }
        ensures does { Does self.old self.new (joins k (tensor self.old l) (tensor self.old h)) result }
    {
        let equal = l == h;
        if equal {
            return Ok(l);
        }
        let mask = self.node_mask(k, l, h);
        let x = normalise::normalise(k, l, h, mask);
        let node = self.make(x.node)?;
        Ok(Edge {
            weight: x.weight,
            node,
        })
    }
}
