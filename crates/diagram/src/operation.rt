// What sum, contraction and lowering have in common.
ghost use Rattle.std.specs.Prelude.{◌≡◌, ◌≤◌};
ghost use Rattle.diagram.specs.Tensor.{index_count};
ghost use Rattle.diagram.specs.Cache.{KeyFits, LookupEnsures};
ghost use Rattle.diagram.specs.Diagram.{IsSound, IsEdge, lowest};

use crate::cache;
use crate::cache::Key;
use crate::diagram::Diagram;
use crate::node::{Edge, Index};

impl<'a> Diagram<'a> {
    // "k is the lower top": the number of indices if both are constant.
    pub(crate) fn lowest(&self, a: Edge, b: Edge) -> Index
        requires { IsSound self.now × (IsEdge self.now a × IsEdge self.now b) }
        ensures { (result ≡ lowest self.now a b) × (result ≤ index_count) }
    {
        self.top(a).min(self.top(b))
    }

    // The result that is remembered for a key, if one is. (Each operation looks up, splits and remembers for
    // itself, in `_cached`, `_split` and `_high`: one for all would take the step as a closure, at which each would
    // write out its clauses all the same.)
    pub(crate) fn recall(&self, key: Key) -> Option<Edge>
        requires { KeyFits key }
        ensures { LookupEnsures self.now.cache.now self.now.state.epoch key result }
    {
        cache::lookup(self.cache, self.state.epoch, key)
    }
}
