// Nodes into the unique table: one more, and all of them anew.
ghost use Rattle.std.specs.Prelude.{◌≡◌, ◌+◌, ◌<◌};
ghost use Rattle.diagram.specs.Node.{RecordWithin, NodeFits, HoldsNodes};
ghost use Rattle.diagram.specs.Table.{TableSound};
ghost use Rattle.diagram.specs.Insert.{link_node, TableFits, AppendEnsures, RebuildEnsures};

use crate::make::BucketCount;
use crate::node::{Node, NodeCount, NodeNumber};
use crate::{fields, node, table};

// Puts node n at the front of its chain.
fn link(s: &mut [u8], buckets: BucketCount, n: NodeNumber)
    requires { RecordWithin s.old n × TableFits s.old n buckets }
    ensures { s.new ≡ link_node buckets n s.old }
{
    let b = table::hash(buckets, node::read(s, n));
    let h = fields::get(s, 4, b);
    fields::set(s, 5, n - 1, h);
    fields::set(s, 4, b, n);
}

// One more node, x, after count nodes.
pub(crate) fn append(s: &mut [u8], count: NodeCount, buckets: BucketCount, x: Node)
    requires { TableSound s.old count buckets × (RecordWithin s.old (count + 1) ×
        ((count + 1 < 65536) × NodeFits x)) }
    ensures { AppendEnsures s.old s.new count buckets x }
{
    let n = count + 1;
    node::write(s, n, x);
    link(s, buckets, n);
}

// Makes the table anew, whatever the heads and nexts are.
pub(crate) fn rebuild(s: &mut [u8], count: NodeCount, buckets: BucketCount)
    requires { HoldsNodes s.old count × TableFits s.old count buckets }
    ensures { RebuildEnsures s.old s.new count buckets }
{
    fields::clear(s, 4, buckets);
    for m in 0..count {
        link(s, buckets, m + 1);
    }
}

// More buckets, where the nodes have become more than the buckets and the store has room. The answer is the number of
// buckets.
pub(crate) fn grow_table(s: &mut [u8], count: NodeCount, buckets: BucketCount) -> BucketCount
    requires { TableSound s.old count buckets }
    ensures { RebuildEnsures s.old s.new count result }
{
    if count <= buckets {
        return buckets;
    }
    let more = 2 * buckets;
    if s.len() / 16 < more {
        return buckets;
    }
    rebuild(s, count, more);
    more
}
