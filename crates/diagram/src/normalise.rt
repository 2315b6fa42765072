// The normal form of a node.
ghost use Rattle.diagram.specs.Normalise.{NormaliseRequires, NormaliseEnsures};

use crate::node::{Edge, Index, Mask, Node, Weight};

// A weight, times a node whose first weight that is not 0 is 1.
#[derive(Clone, Copy)]
pub(crate) struct WeightedNode {
    pub(crate) weight: Weight,
    pub(crate) node: Node,
}

// What is l at 0 and h at 1 of the index k, with its mask: divided by the low weight, or by the high weight where the
// low one is 0.
pub(crate) fn normalise(k: Index, l: Edge, h: Edge, mask: Mask) -> WeightedNode
    requires { NormaliseRequires k l h mask }
    ensures { NormaliseEnsures k l h mask result.weight result.node }
{
    let v = l.weight;
    let w = h.weight;
    let m = l.node;
    let n = h.node;
    if v == 0 {
        let low = Edge { weight: 0, node: m };
        let high = Edge { weight: 1, node: n };
        let node = Node {
            index: k,
            low,
            high,
            mask,
        };
        return WeightedNode { weight: w, node };
    }
    let i = field::inverse(v);
    let r = field::mul(i, w);
    let low = Edge { weight: 1, node: m };
    let high = Edge { weight: r, node: n };
    let node = Node {
        index: k,
        low,
        high,
        mask,
    };
    WeightedNode { weight: v, node }
}
