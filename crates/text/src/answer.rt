// A session's answers, and their printed bytes. (They go to places in the output that was lent: no heap, and the C
// interface gives the slice.)
ghost use Rattle.std.specs.Prelude.{◌≡◌, ◌+◌, ◌≤◌, ◌<◌, length, Ok, Err};
ghost use Rattle.text.specs.Limits.{answer_room, last_mask};
ghost use Rattle.text.specs.Answer.{printed, SmallAnswer, AnswerWritten, labelled_line};
ghost use Rattle.text.specs.Print.{WriteEnsures};

use crate::call::Refusal;
use crate::limits::{Mask, Weight};
use crate::print;
use diagram::compare::Comparison;
use diagram::node::NodeCount;

// What a line is answered that is not refused; `Done` is printed as `ok`.
#[derive(Clone, Copy)]
pub enum Answer {
    Done(NodeCount),
    Value(Weight),
    Compared(Comparison),
    Mask(Mask),
}

// Puts a word with its tab, and a number, as a line; the answer is the place after it.
fn pair(out: &mut [u8], at: usize, word: &[u8], n: usize) -> usize
    requires { (at + answer_room ≤ length out.old) × ((length word.now < 8) × (n ≤ last_mask)) }
    ensures { WriteEnsures out.old at (labelled_line word.now n) out.new result }
{
    let e = print::labelled(out, at, word, n);
    print::put_bytes(out, e, b"\n")
}

#[tactic(auto, unfolding(crate::specs::Answer::printed, crate::specs::Answer::line_of_fields))]
fn put_comparison(out: &mut [u8], at: usize, comparison: Comparison) -> usize
    requires { (at + answer_room ≤ length out.old) × SmallAnswer (Ok (Answer.Compared comparison)) }
    ensures { WriteEnsures out.old at (printed (Ok (Answer.Compared comparison))) out.new result }
{
    match comparison {
        Comparison::Same => print::put_bytes(out, at, b"same\n"),
        Comparison::Factor(f) => pair(out, at, b"factor\t", f as usize),
        Comparison::Differ => print::put_bytes(out, at, b"differ\n"),
    }
}

#[tactic(auto, unfolding(crate::specs::Answer::printed, crate::specs::Answer::line_of_fields))]
fn put(out: &mut [u8], at: usize, answer: Answer) -> usize
    requires { (at + answer_room ≤ length out.old) × SmallAnswer (Ok answer) }
    ensures { WriteEnsures out.old at (printed (Ok answer)) out.new result }
{
    match answer {
        Answer::Done(n) => pair(out, at, b"ok\t", n),
        Answer::Value(w) => pair(out, at, b"v\t", w),
        Answer::Compared(comparison) => put_comparison(out, at, comparison),
        Answer::Mask(m) => pair(out, at, b"m\t", m),
    }
}

#[tactic(auto, unfolding(crate::specs::Answer::printed, crate::specs::Answer::line_of_fields))]
fn put_refusal(out: &mut [u8], at: usize, why: Refusal) -> usize
    requires { at + answer_room ≤ length out.old }
    ensures { WriteEnsures out.old at (printed (Err why)) out.new result }
{
    pair(out, at, b"no\t", why.number())
}

// Writes an answer or a refusal at a place, and answers the place after it.
pub(crate) fn write(out: &mut [u8], at: usize, answer: Result<Answer, Refusal>) -> usize
    requires { (at + answer_room ≤ length out.old) × SmallAnswer answer }
    ensures { AnswerWritten out.old at answer out.new result }
{
    match answer {
        Ok(answer) => put(out, at, answer),
        Err(why) => put_refusal(out, at, why),
    }
}
