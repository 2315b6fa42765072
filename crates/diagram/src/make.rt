// Making a node: it is found in the unique table, or it becomes one more node.
ghost use Rattle.diagram.specs.Node.{NodeFits};
ghost use Rattle.diagram.specs.Diagram.{TableOf, Makes, KeepsCache};

use crate::cache::Epoch;
use crate::diagram::{Diagram, Full};
use crate::node::{Node, NodeCount, NodeNumber};
use crate::{insert, node, table};

// How many buckets the unique table has.
pub type BucketCount = usize;

// What goes with the store: its nodes and buckets, and the epoch of the results that are remembered.
#[derive(Clone, Copy, Drop)]
pub struct State {
    pub count: NodeCount,
    pub epoch: Epoch,
    pub buckets: BucketCount,
}

impl State {
    // No nodes, in one bucket, and the first epoch.
    pub const EMPTY: State = State {
        count: 0,
        epoch: 1,
        buckets: 1,
    };
}

impl<'a> Diagram<'a> {
    // The number of the node x.
    pub(crate) fn make(&mut self, x: Node) -> Result<NodeNumber, Full>
        requires { TableOf self.old × NodeFits x }
        ensures cache { KeepsCache self.old self.new }
        ensures makes { Makes self.old self.new x result }
    {
        let count = self.state.count;
        let buckets = self.state.buckets;
        let store = &mut *self.store;
        let room = node::capacity(store);
        if room == 0 {
            return Err(Full);
        }
        if let Some(n) = table::find(store, count, buckets, x) {
            return Ok(n);
        }
        if room <= count {
            return Err(Full);
        }
        insert::append(store, count, buckets, x);
        let n = count + 1;
        let more = insert::grow_table(store, n, buckets);
        self.state.buckets = more;
        self.state.count = n;
        Ok(n)
    }
}
