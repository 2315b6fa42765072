// The run of a session, line after line (document 01, "Session calls").
ghost use Rattle.std.specs.Prelude.{◌≡◌, ◌+◌, ◌≤◌, ◌<◌, length};
ghost use Rattle.text.specs.Limits.{answer_room};
ghost use Rattle.text.specs.Engine.{KeepsEngine, IsEngine};
ghost use Rattle.text.specs.Progress.{reached, AnswersLine, ResumeLineRequires, ResumesLine, Resumes, result_of};

use crate::engine::Engine;
use crate::limits::ANSWER_ROOM;
use crate::{answer, line, split};
use diagram::node::NodeCount;
use diagram::registers::Registers;

// "The result gives the code (0 or 9), lines answered, bytes written, the node count and the sixteen registers."
// (The code is a number: document 01 and the C interface say 0 or 9. Registers hold node numbers: document 01, too.)
#[derive(Clone, Copy)]
pub struct SessionResult {
    pub code: usize,
    pub lines: usize,
    pub bytes: usize,
    pub count: NodeCount,
    pub registers: Registers,
}

// How far a run has come; the text is read up to `place`. (The code is document 01's number, which the result takes
// over: as an enum it would be turned into that number there.)
#[derive(Clone, Copy)]
pub struct Progress {
    pub code: usize,
    pub lines: usize,
    pub bytes: usize,
    pub place: usize,
}

impl<'b, 'a> Engine<'b, 'a> {
    // One line, which ends before `place`. Its answer goes behind those before it.
    fn answer_line(&mut self, line: &[u8], out: &mut [u8], p: Progress, place: usize) -> Progress
        requires { IsEngine self.old ×
            ((p.bytes + answer_room ≤ length out.old) × (p.lines < 18446744073709551615)) }
        ensures loans { KeepsEngine self.old self.new }
        ensures answers { AnswersLine self.old self.new line.now place out.old out.new p result }
    {
        let answer = self.reply(line::read(line));
        Progress {
            code: 0,
            lines: p.lines + 1,
            bytes: answer::write(out, p.bytes, answer),
            place,
        }
    }

    // The next line of the text.
    fn resume_line(&mut self, text: &[u8], out: &mut [u8], p: Progress) -> Progress
        requires { IsEngine self.old × ResumeLineRequires text.now out.old (reached p self.old) }
        ensures loans { KeepsEngine self.old self.new }
        ensures answers { ResumesLine self.old self.new text.now out.old out.new p result }
    {
        let e = split::end(text, p.place, b'\n');
        self.answer_line(&text[p.place..e], out, p, e + 1)
    }

    // Answers the lines of a text, `limit` of them at most, from what an earlier part of the session has left.
    pub fn resume(&mut self, text: &[u8], out: &mut [u8], limit: usize) -> Progress
        requires { IsEngine self.old }
        ensures loans { KeepsEngine self.old self.new }
        ensures resumes { Resumes self.old self.new text.now limit out.old out.new result }
    {
        let mut p = Progress {
            code: 0,
            lines: 0,
            bytes: 0,
            place: 0,
        };
        // The place goes from line to line, past bytes that `split::end` has passed. (No iterator: the run may stop in
        // the middle, and answers the place.)
        while p.place < text.len() {
            if p.lines == limit {
                return p;
            }
            let short = out.len() - p.bytes < ANSWER_ROOM;
            if short {
                // "the run stops with 9 and the line is not begun"
                return Progress { code: 9, ..p };
            }
            p = self.resume_line(text, out, p);
        }
        p
    }

    pub(crate) fn result(&self, p: Progress) -> SessionResult
        ensures { result ≡ result_of (reached p self.now) }
    {
        SessionResult {
            code: p.code,
            lines: p.lines,
            bytes: p.bytes,
            count: self.diagram.state.count,
            registers: self.registers,
        }
    }
}
