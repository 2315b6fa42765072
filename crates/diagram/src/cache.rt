// The operation cache: remembered results, in a lent slice of any length.
// An entry is four words: the operation and its nodes, its argument, the epoch, the result. (They are no struct, since
// programs in other languages lend plain words, as many as they like.)
ghost use Rattle.std.specs.Prelude.{◌≡◌, ◌≤◌, ◌<◌};
ghost use Rattle.diagram.specs.Cache.{code_of, pack, KeyFits, EdgeFits, LookupEnsures, RememberEnsures, AllZero};
ghost use Rattle.diagram.specs.Cache.{NoneLater, AllEarlier};

use crate::node::{Edge, NodeNumber};

// Results are remembered for an epoch; it steps where they become stale.
pub type Epoch = u64;

#[derive(Clone, Copy)]
pub enum Op {
    Sum = 0,
    Contract = 1,
    Lows = 2,
}

impl Op {
    // What an entry's words say for it. (`as`: an enum's number has no From.)
    fn code(self) -> u64
        ensures { (result ≡ code_of self) × (result < 3) }
    {
        self as u64
    }
}

// (`KeyFits` stands in five clauses, and in no ghost field: a file with one may not name definitions about its struct,
// so the key would stand in a file apart from its methods.)
//
// Everything that a result depends on: the operation, its two nodes (lowering has one, twice), and for sum the ratio of
// the weights, for contraction the set S, for lowering the set that goes down.
#[derive(Clone, Copy)]
pub struct Key {
    pub op: Op,
    pub left: NodeNumber,
    pub right: NodeNumber,
    pub arg: u64,
}

impl Key {
    // The operation and the nodes in one word.
    fn packed(self) -> u64
        requires { KeyFits self }
        ensures { result ≡ pack self }
    {
        self.op.code() * 4294967296 + self.left as u64 * 65536 + self.right as u64
    }

    // Its entry, one of so many. Close nodes have close entries, as in the unique table. A power of 2 needs no
    // division.
    fn place(self, slots: usize) -> usize
        requires { (1 ≤ slots) × KeyFits self }
        ensures { result < slots }
    {
        let m = self.left * 5 + self.right * 3 + self.arg as usize * 977;
        let mask = slots - 1;
        if slots & mask == 0 {
            return m & mask;
        }
        m % slots
    }
}

// The result that the cache has for the key, of this epoch. (Cache and epoch are two parameters: the epoch is part of
// the diagram's `State`, which `rollback` takes as it was.)
pub(crate) fn lookup(cache: &[u64], epoch: Epoch, key: Key) -> Option<Edge>
    requires { KeyFits key }
    ensures { LookupEnsures cache.now epoch key result }
{
    let slots = cache.len() / 4;
    if slots == 0 {
        return None;
    }
    let at = 4 * key.place(slots);
    if cache[at] != key.packed() || cache[at + 1] != key.arg || cache[at + 2] != epoch {
        return None;
    }
    let result = cache[at + 3];
    Some(Edge {
        weight: result / 65536,
        node: (result % 65536) as usize,
    })
}

pub(crate) fn remember(cache: &mut [u64], epoch: Epoch, key: Key, e: Edge)
    requires { KeyFits key × EdgeFits e }
    ensures { RememberEnsures cache.old cache.new epoch key e }
{
    let slots = cache.len() / 4;
    if slots == 0 {
        return;
    }
    let at = 4 * key.place(slots);
    cache[at] = key.packed();
    cache[at + 1] = key.arg;
    cache[at + 2] = epoch;
    cache[at + 3] = e.weight * 65536 + e.node as u64;
}

// Forgets everything: no entry is of an epoch from 1 on.
pub(crate) fn clear(cache: &mut [u64])
    ensures { AllZero cache.new }
{
    cache.fill(0);
}

// An epoch that no entry is of. At the largest one everything is forgotten, so that an epoch never comes twice.
pub(crate) fn next_epoch(cache: &mut [u64], epoch: Epoch) -> Epoch
    requires { NoneLater cache.old epoch }
    ensures { AllEarlier cache.new result }
{
    if epoch == Epoch::MAX {
        clear(cache);
        return 1;
    }
    epoch + 1
}
