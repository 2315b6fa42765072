// A line of a session.
ghost use Rattle.text.specs.Line.{LineRead};

use crate::call::{Call, Refusal};
use crate::limits::MOST_DIGITS;
use crate::{args, call, gate, split, words};

// The call that a line is, or its refusal.
pub fn read(line: &[u8]) -> Result<Call, Refusal>
    ensures { LineRead line.now result }
{
    let e = split::end(line, 0, b'\t');
    let word = &line[..e];
    if word == b"gate".as_slice() {
        return gate::read(line, e);
    }
    call::make(words::read(word), args::after(line, e, MOST_DIGITS))
}
