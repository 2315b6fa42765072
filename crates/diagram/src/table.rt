// The unique table: a hash table whose chains run through the records.
ghost use Rattle.std.specs.Prelude.{◌≡◌, ◌≤◌, ◌<◌};
ghost use Rattle.diagram.specs.Node.{NodeFits, node_at};
ghost use Rattle.diagram.specs.Table.{hash as hashed, TableSound, FindEnsures};

use crate::make::BucketCount;
use crate::node::{Node, NodeCount, NodeNumber};
use crate::{fields, node};

// (A store and two numbers, and no diagram: the cache has no part here, and `insert` works while no state is true.)

// The bucket of a node. Nodes that are made one after the other lead to nodes with close numbers: small factors of
// these keep their buckets close in the store. The buckets are a power of 2, so that every one is reached.
pub(crate) fn hash(buckets: BucketCount, x: Node) -> usize
    requires { (1 ≤ buckets) × NodeFits x }
    ensures { (result ≡ hashed buckets x) × (result < buckets) }
{
    let m = x.index * 40503
        + x.low.weight as usize * 977
        + x.low.node
        + x.high.weight as usize * 2741
        + x.high.node * 5;
    m & (buckets - 1)
}

// The number of the node x, where there is one.
pub(crate) fn find(s: &[u8], count: NodeCount, buckets: BucketCount, x: Node) -> Option<NodeNumber>
    requires { TableSound s.now count buckets × NodeFits x }
    ensures { FindEnsures (node_at s.now) count x result }
{
    let mut n = fields::get(s, 4, hash(buckets, x));
    // A chain of node numbers ends at 0, and no range or slice has them. (An iterator over it would have to read the
    // store at each step, and say itself why it ends.)
    while n != 0 {
        if node::read(s, n) == x {
            return Some(n);
        }
        n = fields::get(s, 5, n - 1);
    }
    None
}
