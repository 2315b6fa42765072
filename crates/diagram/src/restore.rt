// Starting with no nodes, and coming back from a call that was refused.
ghost use Rattle.std.specs.Prelude.{◌≡◌, ◌≤◌, length};
ghost use Rattle.diagram.specs.Node.{HoldsNodes};
ghost use Rattle.diagram.specs.Insert.{TableFits};
ghost use Rattle.diagram.specs.Restore.{RebuiltOrNoRoom, StartEnsures, RollbackRequires, RollbackEnsures};
ghost use Rattle.diagram.specs.Attempt.{MayAttempt, Attempts};
ghost use Rattle.diagram.specs.Diagram.{KeepsLoans};

use crate::diagram::{Diagram, Full};
use crate::make::{BucketCount, State};
use crate::node::{Edge, NodeCount};
use crate::{cache, insert};

// The unique table made anew, where the store has room for one. (A store alone: no state is true of it meanwhile.)
fn remake(store: &mut [u8], count: NodeCount, buckets: BucketCount)
    requires { HoldsNodes store.old count × (16 ≤ length store.old → TableFits store.old count buckets) }
    ensures { RebuiltOrNoRoom store.old store.new count buckets }
{
    if 16 <= store.len() {
        insert::rebuild(store, count, buckets);
    }
}

impl<'a> Diagram<'a> {
    // A diagram in this store, with this cache. Of its nodes nothing is known before `start`.
    pub fn over(store: &'a mut [u8], cache: &'a mut [u64]) -> Diagram<'a>
        ensures store { (result.store.ghost_name ≡ store.entry.ghost_name) × (result.store.now ≡ store.old) }
        ensures cache { (result.cache.ghost_name ≡ cache.entry.ghost_name) × (result.cache.now ≡ cache.old) }
    {
        Diagram {
            store,
            cache,
            state: State::EMPTY,
        }
    }

    // No nodes, whatever the store and the cache hold.
    pub fn start(&mut self)
        ensures loans { KeepsLoans self.old self.new }
        ensures start { StartEnsures self.new.cache.now self.old.store.now self.new.store.now self.new.state }
    {
        cache::clear(self.cache);
        remake(self.store, 0, 1);
        self.state = State::EMPTY;
    }

    // The nodes of `before` again, where a refused call has left more.
    pub fn rollback(&mut self, before: State)
        requires { RollbackRequires self.old.cache.now self.old.store.now before }
        ensures loans { KeepsLoans self.old self.new }
        ensures rollback { RollbackEnsures self.new.cache.now self.old.store.now self.new.store.now before
            self.new.state }
    {
        let epoch = cache::next_epoch(self.cache, before.epoch);
        remake(self.store, before.count, before.buckets);
        self.state = State {
            count: before.count,
            buckets: before.buckets,
            epoch,
        };
    }

    // The step; where it does not fit, the nodes are those before it.
    pub fn attempt<F: FnOnce(&mut Diagram<'a>) -> Result<Edge, Full>>(
        &mut self,
        step: F,
    ) -> Result<Edge, Full>
        requires { MayAttempt F.FnOnce step self.old }
        ensures { Attempts F.FnOnce step self.old self.new result }
    {
        let before = self.state;
        let made = step(self);
        if made.is_err() {
            self.rollback(before);
        }
        made
    }
}
