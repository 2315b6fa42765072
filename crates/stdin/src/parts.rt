// An input's texts, one after the other, from parts that are read. The memory is lent and fixed, with no heap: a text
// may be of any length, and where it does not fit, that is said.
ghost use Rattle.std.specs.Prelude.{◌≡◌, ◌≤◌, IfOk, IfErr, length};
ghost use Rattle.std.specs.Io.KnownBytes.{Keeps};
ghost use Rattle.stdin.specs.Parts.{at_hand, left, KeepsPart, FillEnsures, BeforeEnsures, PutEnsures, TakesText};
ghost use Rattle.stdin.specs.Parts.{TextBegun};

use crate::{ReadFailed, read};
use std::io::Read;

// An input, and the part of it that was read last: in that, the bytes from `at` to `end` have not been taken yet.
#[derive(Drop)]
pub struct Parts<'a, R: Read + Drop> {
    input: R,
    part: &'a mut [u8],
    at: usize,
    end: usize,
}

impl<'a, R: Read + Drop> Parts<'a, R> {
    // So much is read at once as `part` has room for.
    pub fn over(input: R, part: &'a mut [u8]) -> Parts<'a, R>
        ensures part { (result.part.ghost_name ≡ part.entry.ghost_name) × (result.part.now ≡ part.old) }
        ensures left { left R.remaining result ≡ R.remaining input }
    {
        Parts {
            input,
            part,
            at: 0,
            end: 0,
        }
    }

    // Reads where all that came was taken. Whether there is a byte to take; there is none where the input has ended.
    fn fill(&mut self) -> Result<bool, ReadFailed>
        ensures loans { KeepsPart self.old self.new }
        ensures fills { IfOk result (FillEnsures R.remaining self.old self.new) }
        ensures fails { IfErr result (λ _. Keeps (left R.remaining self.old) (left R.remaining self.new)) }
    {
        // (No type says that `end` is within the part.)
        self.end = self.end.min(self.part.len());
        if self.at < self.end {
            return Ok(true);
        }
        self.at = 0;
        self.end = 0;
        self.end = read(&mut self.input, self.part)?;
        Ok(0 < self.end)
    }

    // Puts the bytes at hand that stand before the first `end`: how many they are, and how many the text has with them.
    fn put_before(&self, end: u8, text: &mut [u8], len: usize) -> (usize, usize)
        requires { (self.now.at ≤ self.now.end) × (self.now.end ≤ length self.now.part.now) }
        ensures { BeforeEnsures end (at_hand self.now) text.old len text.new result.0 result.1 }
    {
        let hand = &self.part[self.at..self.end];
        let count = hand.iter().position(|&b| b == end).unwrap_or(hand.len());
        (count, put(text, len, &hand[..count]))
    }

    // The next text, which the byte `end` ends, without it, at the front of `text`: how many bytes it has, or one more
    // than fit there where it has more. None where the input ends before an `end`: what comes last without one is no
    // text.
    pub fn read_text(&mut self, end: u8, text: &mut [u8]) -> Result<Option<usize>, ReadFailed>
        ensures loans { KeepsPart self.old self.new }
        ensures takes { IfOk result (TakesText end (length self.old.part.now)
            (left R.remaining self.old) (left R.remaining self.new) text.old text.new) }
        ensures fails { IfErr result (λ _. TextBegun end
            (left R.remaining self.old) (left R.remaining self.new) text.old text.new) }
    {
        let mut len = 0;
        // A proved loop has to end, and nothing says that an input does: no text uses this count up.
        for _ in 0..u64::MAX {
            if !self.fill()? {
                return Ok(None);
            }
            let (count, with) = self.put_before(end, text, len);
            if count < self.end - self.at {
                self.at += count + 1;
                return Ok(Some(with));
            }
            self.at = self.end;
            len = with;
        }
        Err(ReadFailed)
    }
}

// These bytes more of a text, and how many it has now, or one more than fit. What does not fit is left out.
fn put(text: &mut [u8], len: usize, bytes: &[u8]) -> usize
    ensures { PutEnsures bytes.now text.old len text.new result }
{
    let room = text.len();
    if len <= room && bytes.len() <= room - len {
        let end = len + bytes.len();
        text[len..end].copy_from_slice(bytes);
        return end;
    }
    room + 1
}

#[cfg(test)]
mod tests {
    use super::*;
    use std::test::Fail;

    #[test]
    fn texts_and_a_last_part(rt: HostRuntime) -> Result<(), Fail> {
        let mut part = [0u8; 4];
        let mut input = Parts::over(b"ab\0\0long\0c".as_slice(), &mut part);
        let mut text = [0u8; 3];
        assert_eq!(rt; input.read_text(0, &mut text), Ok(Some(2)));
        assert_eq!(rt; &text[..2], b"ab".as_slice());
        assert_eq!(rt; input.read_text(0, &mut text), Ok(Some(0)));
        // One more than fit.
        assert_eq!(rt; input.read_text(0, &mut text), Ok(Some(4)));
        assert_eq!(rt; input.read_text(0, &mut text), Ok(None));
        assert_eq!(rt; text[0], b'c');
        assert_eq!(rt; input.read_text(0, &mut text), Ok(None));
        Ok(())
    }
}
