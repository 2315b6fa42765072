// What the programs read: an input, one read at a time into a lent buffer, or its texts one after the other. And for a
// caller with a heap: text after text into a Vec.
#![tactic(auto)]

pub mod parts;

ghost use Rattle.std.specs.Prelude.{◌≡◌, IfSome, IfOk, OnOk, length};
ghost use Rattle.std.specs.Io.BufRead.{take_through, ends_with_byte, strip_last, first_piece, DropsThrough};
ghost use Rattle.std.specs.Io.KnownBytes.{ReadConsumes};
ghost use Rattle.stdin.specs.Stdin.{IsPrefixLen, outcome_of, PossibleRead};

use std::io;
use std::io::{BufRead, Read};

// Reading failed, and nobody knows what is missing.
#[derive(Clone, Copy, Debug, PartialEq, Eq)]
pub struct ReadFailed;

// What a read answered, without the reason of a failure.
fn outcome_of(got: io::Result<usize>) -> Result<usize, ReadFailed>
    ensures { result ≡ outcome_of got }
{
    got.map_err(|_| ReadFailed)
}

// Reads once. So many bytes came, which stand at the front of the buffer; none where the input has ended. (From any
// reader: what standard input gives no contract says, what a known input gives its contract does.)
pub fn read<R: Read>(input: &mut R, buffer: &mut [u8]) -> Result<usize, ReadFailed>
    ensures prefix_len { IfOk result (λ n. IsPrefixLen n buffer.new) }
    ensures possible_read { PossibleRead (length buffer.new) result }
    ensures bytes { ReadConsumes (R.remaining input.old) (R.remaining input.new) result buffer.new }
{
    outcome_of(input.read(buffer))
}

// Takes the last byte off if it is `end`, and answers whether it was.
fn take_off(text: &mut Vec<u8>, end: u8) -> bool
    ensures ended { result ≡ ends_with_byte end text.old.items }
    ensures items { text.new.items ≡ strip_last end text.old.items }
{
    let n = text.len();
    if n == 0 {
        return false;
    }
    if text[n - 1] != end {
        return false;
    }
    text.truncate(n - 1);
    true
}

// Reads the bytes up to the next `end` into `text`, without it, and answers whether it came. (A text of any length, in
// memory that grows with it: the programs have a fixed one, and take their texts from `Parts`.)
pub fn read_text<R: BufRead>(input: &mut R, end: u8, text: &mut Vec<u8>) -> io::Result<bool>
    ensures text { OnOk result (IfSome (R.remaining input.old)
        (λ xs. text.new.items ≡ first_piece end xs)) }
    ensures ended { IfOk result (λ ended. IfSome (R.remaining input.old)
        (λ xs. ended ≡ ends_with_byte end (take_through end xs))) }
    ensures rest { OnOk result (DropsThrough (R.remaining input.old) (R.remaining input.new) end) }
{
    text.clear();
    input.read_until(end, text)?;
    Ok(take_off(text, end))
}

#[cfg(test)]
mod tests {
    use super::*;
    use std::test::Fail;

    #[test]
    fn pieces_and_a_last_part(rt: HostRuntime) -> Result<(), Fail> {
        let mut input = b"ab\0\0c".as_slice();
        let mut text = Vec::new(rt.alloc());
        assert!(rt; read_text(&mut input, 0, &mut text)?);
        assert_eq!(rt; text.as_slice(), b"ab".as_slice());
        assert!(rt; read_text(&mut input, 0, &mut text)?);
        assert!(rt; text.is_empty());
        assert!(rt; !read_text(&mut input, 0, &mut text)?);
        assert_eq!(rt; text.as_slice(), b"c".as_slice());
        assert!(rt; !read_text(&mut input, 0, &mut text)?);
        assert!(rt; text.is_empty());
        Ok(())
    }
}
