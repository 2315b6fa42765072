// A verdict's answer, and its printed bytes.
ghost use Rattle.std.specs.Prelude.{◌≤◌, length};
ghost use Rattle.text.specs.Limits.{verdict_room};
ghost use Rattle.text.specs.Ruling.{SmallRuling, RulingWritten, no_at};

use crate::answer::Answer;
use crate::check::{Fault, FaultAt};
use crate::limits::LineNumber;
use crate::{answer, print};
use diagram::compare::Comparison;

// "The result is code and bytes written" (The code is a number: document 01 and the C interface say 0 or 9.)
#[derive(Clone, Copy)]
pub struct VerdictResult {
    pub code: usize,
    pub bytes: usize,
}

fn write_refusal(out: &mut [u8], fault: Fault, line: LineNumber) -> usize
    requires { verdict_room ≤ length out.old }
    ensures { RulingWritten out.old (no_at fault line) out.new result }
{
    let n = fault.number();
    let a = print::labelled(out, 0, b"no\t", n);
    let b = print::labelled(out, a, b"\t", line);
    print::put_bytes(out, b, b"\n")
}

// Writes a verdict's answer at the start of the output, and answers how many bytes it has.
pub(crate) fn write(out: &mut [u8], ruling: Result<Comparison, FaultAt>) -> usize
    requires { (verdict_room ≤ length out.old) × SmallRuling ruling }
    ensures { RulingWritten out.old ruling out.new result }
{
    match ruling {
        Ok(comparison) => answer::write(out, 0, Ok(Answer::Compared(comparison))),
        Err(at) => write_refusal(out, at.fault, at.line),
    }
}
