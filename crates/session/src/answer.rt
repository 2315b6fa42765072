// The answer to one line.
ghost use Rattle.std.specs.Prelude.{◌≡◌, ◌≤◌, length, take};
ghost use Rattle.session.specs.Answer.{memory_of, KeepsSession, AnswerRequires, AnswerEnsures, ReplyEnsures};
ghost use Rattle.session.specs.Output.{PutEnsures};
ghost use Rattle.text.specs.Limits.{answer_room};
ghost use Rattle.text.specs.Engine.{contents, IsEngine, KeepsEngine};
ghost use Rattle.text.specs.Progress.{Resumes};

use crate::output::{Output, WriteFailed};
use text::engine::Engine;
use text::limits::ANSWER_ROOM;
use text::progress::Progress;
use text::squeeze::Squeeze;

// A session on an input: the line that has come so far, squeezed into the front of `line` (a lent slice with a length
// beside it, and no Vec: the memory is fixed, with no heap), the engine after the lines before it, and where their
// answers go. The engine is a reference: were it held by value, no proof would know what its store holds once the
// session is gone. (What is asked of it stands at each method, and in no invariant of the type: most of it is
// `IsEngine`, which is none either.)
#[derive(Drop)]
pub struct Session<'l, 'b, 'a, 'o, W: Output> {
    pub line: &'l mut [u8],
    pub squeeze: Squeeze,
    pub engine: &'l mut Engine<'b, 'a>,
    pub output: &'o mut W,
}

impl<'l, 'b, 'a, 'o, W: Output> Session<'l, 'b, 'a, 'o, W> {
    // Puts the answer at the front of `out`; it is not yet written. The LF makes an empty line a line.
    fn reply(&mut self, out: &mut [u8]) -> Progress
        requires { AnswerRequires (memory_of self.old) self.old.squeeze (contents self.old.engine.now)
            × (answer_room ≤ length out.old) }
        ensures loans { KeepsSession self.old self.new }
        ensures squeeze { self.new.squeeze ≡ self.old.squeeze }
        ensures output { self.new.output.now ≡ self.old.output.now }
        ensures replies { ReplyEnsures (memory_of self.old) self.old.squeeze (contents self.old.engine.now)
            (memory_of self.new) (contents self.new.engine.now) out.new result }
    {
        let length = self.squeeze.length;
        let line = &mut *self.line;
        line[length] = b'\n';
        run_line(self.engine, line, length + 1, out)
    }

    // Runs the line and writes its answer.
    pub fn answer(&mut self) -> Result<(), WriteFailed>
        requires { AnswerRequires (memory_of self.old) self.old.squeeze (contents self.old.engine.now) }
        ensures loans { KeepsSession self.old self.new }
        ensures squeeze { self.new.squeeze ≡ self.old.squeeze }
        ensures answers { AnswerEnsures (memory_of self.old) self.old.squeeze (contents self.old.engine.now)
            (memory_of self.new) (contents self.new.engine.now) }
        ensures writes { PutEnsures (W.outcomes self.old.output.now) (W.outcomes self.new.output.now) result }
    {
        let mut out = [0u8; ANSWER_ROOM];
        let bytes = self.reply(&mut out).bytes;
        self.output.put(&out[..bytes])
    }
}

// Runs the line in the buffer's first bytes. It is no part of `reply`, since of a slice in a field nothing is known
// after a part of it was lent.
fn run_line(engine: &mut Engine, buffer: &[u8], end: usize, out: &mut [u8]) -> Progress
    requires { IsEngine engine.old × (end ≤ length buffer.now) }
    ensures loans { KeepsEngine engine.old engine.new }
    ensures resumes { Resumes engine.old engine.new (take end buffer.now) 1 out.old out.new result }
{
    engine.resume(&buffer[..end], out, 1)
}
