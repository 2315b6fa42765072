// A session: the lines of a text, answered one after the other, from no nodes and empty registers.
ghost use Rattle.std.specs.Prelude.{take};
ghost use Rattle.diagram.specs.Node.{capacity};
ghost use Rattle.text.specs.Text.{lines};
ghost use Rattle.text.specs.Session.{at_most, empty_run};
ghost use Rattle.text.specs.Agrees.{AgreesThroughout};

use crate::engine::Engine;
use crate::progress::SessionResult;
use diagram::diagram::Diagram;
use diagram::registers::Registers;

// The session of a text up to its first `limit` lines. (Text, store, cache and output travel as four slices here and in
// judge.rt, and in the programs that call these, as the C interface lends them.)
pub fn work(
    text: &[u8],
    store: &mut [u8],
    cache: &mut [u64],
    out: &mut [u8],
    limit: usize,
) -> SessionResult
    ensures { AgreesThroughout (at_most (capacity store.old))
        (take limit (lines text.now)) empty_run
        store.new out.old out.new result }
{
    let mut diagram = Diagram::over(store, cache);
    let mut engine = Engine {
        diagram: &mut diagram,
        registers: Registers::empty(),
    };
    engine.start();
    let p = engine.resume(text, out, limit);
    engine.result(p)
}

// The session of a text: a text has no more lines than bytes.
pub fn session(text: &[u8], store: &mut [u8], cache: &mut [u64], out: &mut [u8]) -> SessionResult
    ensures { AgreesThroughout (at_most (capacity store.old)) (lines text.now) empty_run
        store.new out.old out.new result }
{
    work(text, store, cache, out, text.len())
}
