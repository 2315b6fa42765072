// The session on standard input (document 01, "A session printed whole"), at capacity 2048: each line is answered
// before more is read.
//
// It stops at the first failed read and at the first failed write, and a line on standard error says so. (The exit
// status is 0 all the same.)
#![tactic(auto)]

mod answer;
mod feed;
mod input;
mod outcome;
mod output;
#[cfg(test)]
mod tests;

ghost use Rattle.std.specs.Prelude.{◌≡◌, ◌≤◌, [], length};
ghost use Rattle.diagram.specs.Node.{capacity};
ghost use Rattle.session.specs.Session.{SessionEnsures, RunsWhole};
ghost use Rattle.text.specs.Engine.{contents, KeepsEngine};
ghost use Rattle.text.specs.Limits.{line_room};

use answer::Session;
use diagram::diagram::Diagram;
use diagram::registers::Registers;
use outcome::Stopped;
use output::{Output, Recorded};
use std::io::Read;
use text::engine::Engine;
use text::limits::LINE_ROOM;
use text::squeeze::Squeeze;

// 2048 nodes of 16 bytes. (Each program says for itself what memory it has.)
const STORE: usize = 32768;

// 4096 remembered results of four words.
const CACHE: usize = 16384;

// The session, in an engine with nothing in it: the input to its end, and its last line.
fn run<'l, 'b, 'a, R: Read, W: Output>(
    input: &mut R,
    output: &mut W,
    line: &'l mut [u8],
    engine: &'l mut Engine<'b, 'a>,
) -> Result<(), Stopped>
    requires room { line_room ≤ length line.old }
    requires capacity { capacity engine.old.diagram.now.store.now ≡ 2048 }
    requires nothing_written { W.outcomes output.old ≡ [] }
    ensures loans { KeepsEngine engine.old engine.new }
    ensures session { SessionEnsures engine.new.diagram.now.store.now (contents engine.new) (W.outcomes output.new)
        result }
    ensures whole { RunsWhole (R.remaining input.old) (R.remaining input.new)
        engine.new.diagram.now.store.now (contents engine.new) (W.outcomes output.new) result }
{
    engine.start();
    let mut session = Session {
        line,
        squeeze: Squeeze::none(),
        engine,
        output,
    };
    let received = session.receive(input);
    session.finish(received)
}

// The arrays as slices; their lengths are known here, and nothing has to count their elements. (Each program has its
// own: what is made of them differs.)
fn lend(rt: HostRuntime, store: &mut [u8; STORE], cache: &mut [u64; CACHE]) {
    let mut line = [0u8; LINE_ROOM];
    let mut diagram = Diagram::over(store, cache);
    let mut engine = Engine {
        diagram: &mut diagram,
        registers: Registers::empty(),
    };
    let mut output = Recorded::new(rt.stdout());
    if let Err(e) = run(&mut rt.stdin(), &mut output, &mut line, &mut engine) {
        // What cannot be written is left out.
        println!(rt.stderr(); "session: {e}").unwrap_or(());
    }
}

fn main(rt: HostRuntime) {
    let mut store = [0u8; STORE];
    let mut cache = [0u64; CACHE];
    lend(rt, &mut store, &mut cache);
}
