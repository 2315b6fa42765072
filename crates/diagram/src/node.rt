// A node, and its record in the store.
ghost use Rattle.std.specs.Prelude.{◌≡◌};
ghost use Rattle.diagram.specs.Node.{capacity as capacity_of, RecordWithin, NodeFits, node_at, put_node};

use crate::fields;
// (Passed on to the layers above, which do not name the field.)
pub use field::Weight;

// Nodes are numbered from 1; node 0 is the constant 1.
pub type NodeNumber = usize;

pub type NodeCount = usize;

// (A plain number, as a qubit is: 3q + 1 and k - 1 are computed with it all over, and a struct that says that it is
// below 24 would be opened and made anew each time.)
pub type Index = usize;

// A set of indices: its bits are the members. (A plain number, as an index is.)
pub type Mask = u64;

// A value for each index: bit k is the value of index k.
pub type Assignment = u64;

// How many indices there are; in the place of an index it says that there is none. (No Option: it is compared with
// indices, by `<` and `min`, and is above each.)
pub(crate) const INDICES: Index = 24;

// A weight times a node's tensor.
#[derive(Clone, Copy, PartialEq, Eq)]
pub struct Edge {
    pub weight: Weight,
    pub node: NodeNumber,
}

impl Edge {
    // "Zero is weight 0 at node 0."
    pub const ZERO: Edge = Edge { weight: 0, node: 0 };
}

// (`NodeFits` stands in clauses, and in no ghost field: with one, no node is made of another by `..x`, and its
// functions would stand in a file apart.)
#[derive(Clone, Copy, PartialEq, Eq)]
pub struct Node {
    pub index: Index,
    pub low: Edge,
    pub high: Edge,
    // The indices on which the node's tensor depends.
    pub mask: Mask,
}

// The most nodes that the store holds.
pub(crate) fn capacity(s: &[u8]) -> NodeCount
    ensures { result ≡ capacity_of s.now }
{
    (s.len() / 16).min(65535)
}

// Node n. (`as` between `usize` and `u64`, which have no From, here and in the other modules.)
pub(crate) fn read(s: &[u8], n: NodeNumber) -> Node
    requires { RecordWithin s.now n }
    ensures { (result ≡ node_at s.now n) × NodeFits result }
{
    let i = n - 1;
    let a = fields::get(s, 0, i);
    let b = fields::get(s, 1, i);
    let c = fields::get(s, 2, i);
    let d = fields::get(s, 3, i);
    let e = fields::get(s, 6, i);
    let f = fields::get(s, 7, i);
    let high = c + 65536 * (a / 512 % 2);
    let mask = e + 65536 * f;
    Node {
        index: a % 256,
        low: Edge {
            weight: (a / 256 % 2) as u64,
            node: b,
        },
        high: Edge {
            weight: high as u64,
            node: d,
        },
        mask: mask as u64,
    }
}

// Writes node n.
pub(crate) fn write(s: &mut [u8], n: NodeNumber, x: Node)
    requires { RecordWithin s.old n × NodeFits x }
    ensures { s.new ≡ put_node s.old n x }
{
    let i = n - 1;
    let low = x.low.weight as usize;
    let high = x.high.weight as usize;
    let mask = x.mask as usize;
    let packed = x.index + 256 * low + 512 * (high / 65536);
    fields::set(s, 0, i, packed);
    fields::set(s, 1, i, x.low.node);
    fields::set(s, 2, i, high % 65536);
    fields::set(s, 3, i, x.high.node);
    fields::set(s, 6, i, mask % 65536);
    fields::set(s, 7, i, mask / 65536);
}
