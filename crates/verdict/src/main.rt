// The verdict on standard input (document 01, "Verdicts"), at capacity 2048.
//
// A text that is longer than the buffer, or whose reading failed, is not judged, and a line on standard error says
// so, as it does of an answer that could not be written. (The exit status is 0 all the same.)
#![tactic(auto)]

mod input;
mod outcome;

ghost use Rattle.std.specs.Prelude.{◌≡◌, ◌≤◌, IfOk, length};
ghost use Rattle.diagram.specs.Node.{capacity};
ghost use Rattle.verdict.specs.Input.{KeepsBuffer};
ghost use Rattle.verdict.specs.Verdict.{RunEnsures, AnswersWhole};

use input::Buffer;
use outcome::Unjudged;
use std::io::{Print, Read, Stderr, Stdout};
use text::limits::VERDICT_ROOM;
use text::ruling::VerdictResult;

// 2048 nodes of 16 bytes. (Each program says for itself what memory it has.)
const STORE: usize = 32768;

// 4096 remembered results of four words.
const CACHE: usize = 16384;

// The longest text: 1 MiB.
const TEXT: usize = 1048576;

fn run<R: Read>(
    input: &mut R,
    buffer: &mut Buffer,
    store: &mut [u8],
    cache: &mut [u64],
    out: &mut [u8],
) -> Result<VerdictResult, Unjudged>
    requires { capacity store.old ≡ 2048 }
    ensures loans { KeepsBuffer buffer.old buffer.new }
    ensures judges { RunEnsures buffer.old buffer.new store.old
        out.old out.new result }
    ensures whole { AnswersWhole (R.remaining input.old) buffer.new store.old
        out.old out.new result }
{
    buffer.receive(input)?;
    outcome::judge(buffer, store, cache, out)
}

// What cannot be written to standard error is left out.
fn show(stdout: Stdout, stderr: Stderr, out: &[u8], outcome: Result<VerdictResult, Unjudged>)
    requires { IfOk outcome (λ v. v.bytes ≤ length out.now) }
{
    match outcome {
        Ok(v) => {
            if stdout.write_all(&out[..v.bytes]).is_err() {
                println!(stderr; "verdict: writing failed").unwrap_or(());
            }
        }
        Err(e) => println!(stderr; "verdict: {e}").unwrap_or(()),
    }
}

// The arrays as slices; their lengths are known here, and nothing has to count their elements. (Each program has its
// own: what is made of them differs.)
fn lend(rt: HostRuntime, text: &mut [u8; TEXT], store: &mut [u8; STORE], cache: &mut [u64; CACHE]) {
    let mut out = [0u8; VERDICT_ROOM];
    let mut buffer = Buffer { text, len: 0 };
    let outcome = run(&mut rt.stdin(), &mut buffer, store, cache, &mut out);
    show(rt.stdout(), rt.stderr(), &out, outcome);
}

fn main(rt: HostRuntime) {
    let mut text = [0u8; TEXT];
    let mut store = [0u8; STORE];
    let mut cache = [0u64; CACHE];
    lend(rt, &mut text, &mut store, &mut cache);
}
