// Collection (document 01, `collect`): the nodes that no filled register reaches go, the gaps close, the order stays.
// Marks and new numbers live in the records meanwhile; the unique table is made anew, and nothing is remembered across.
ghost use Rattle.std.specs.Prelude.{◌≤◌, ◌<◌};
ghost use Rattle.diagram.specs.Node.{node_at, HoldsNodes};
ghost use Rattle.diagram.specs.Mark.{ChildrenBefore};
ghost use Rattle.diagram.specs.Registers.{RegistersValid};
ghost use Rattle.diagram.specs.Collect.{SweepEnsures, CollectRequires, CollectEnsures};
ghost use Rattle.diagram.specs.Diagram.{KeepsLoans};

use crate::diagram::Diagram;
use crate::make::{BucketCount, State};
use crate::node::NodeCount;
use crate::registers::Registers;
use crate::{compact, mark};

// Moves the reached nodes down, and answers how many they are; the registers get their nodes' new numbers. (What works
// on a store alone here, in `mark`, in `compact` and in `insert`: no state is true of it meanwhile.)
fn sweep(store: &mut [u8], count: NodeCount, registers: &mut Registers) -> NodeCount
    requires { HoldsNodes store.old count × ((count < 65536) ×
        (ChildrenBefore (node_at store.old) count × RegistersValid count registers.old.all)) }
    ensures { SweepEnsures count registers.old.all store.old store.new result registers.new.all }
{
    mark::reach(store, count, *registers);
    let kept = compact::compact(store, count);
    compact::renumber(store, count, registers);
    kept
}

// Fewer buckets for far fewer nodes, so that the next table costs in proportion to the nodes; some to spare, since the
// next gate makes about as many nodes again.
fn fewer(count: NodeCount, buckets: BucketCount) -> BucketCount
    ensures { 1 ≤ buckets → (1 ≤ result) × (result ≤ buckets) }
{
    let mut b = buckets;
    // Halving has no range.
    while count < b / 8 {
        b = b / 2;
    }
    b
}

impl<'a> Diagram<'a> {
    // What the registers do not reach goes; they get their nodes' new numbers.
    pub fn collect(&mut self, registers: &mut Registers)
        requires { CollectRequires self.old.cache.now self.old.store.now self.old.state registers.old.all }
        ensures loans { KeepsLoans self.old self.new }
        ensures collects { CollectEnsures self.new.cache.now self.old.store.now self.new.store.now self.old.state
            self.new.state registers.old.all registers.new.all }
    {
        let State {
            count,
            epoch,
            buckets,
        } = self.state;
        let count = sweep(self.store, count, registers);
        let buckets = fewer(count, buckets);
        self.rollback(State {
            count,
            buckets,
            epoch,
        });
    }
}
