// An input, part after part, into one buffer.
ghost use Rattle.std.specs.Io.KnownBytes.{IsAtEnd};
ghost use Rattle.std.specs.Prelude.{[], ◌∷◌, OnOk};
ghost use Rattle.verdict.specs.Input.{KeepsBuffer, FeedEnsures, ReadEnsures, ReadTakes, Reads, Taken};

use std::io::Read;
use stdin::ReadFailed;

// How many bytes are read at once. (An array: the memory is fixed, with no heap. Each program says for itself what
// memory it has, as in main.rt.)
const PART: usize = 4096;

// The bytes that came, as many as fit into the slice that was lent, and how many came; one more than fit where more
// came. (A slice with a length beside it, and no Vec: the memory is fixed, with no heap.)
#[derive(Drop)]
pub struct Buffer<'a> {
    pub text: &'a mut [u8],
    pub len: usize,
}

impl<'a> Buffer<'a> {
    // A byte that does not fit is counted once and not kept. (One more than fit is a number for "more came": the count
    // says both what came and whether it fits.)
    fn put(&mut self, b: u8)
        ensures loans { KeepsBuffer self.old self.new }
        ensures feeds { FeedEnsures (b ∷ []) self.old self.new }
    {
        let room = self.text.len();
        if self.len < room {
            self.text[self.len] = b;
            self.len += 1;
        } else {
            self.len = room + 1;
        }
    }

    // The bytes that come next.
    fn feed(&mut self, part: &[u8])
        ensures loans { KeepsBuffer self.old self.new }
        ensures feeds { FeedEnsures part.now self.old self.new }
    {
        for b in part {
            self.put(*b);
        }
    }

    // Reads once, and answers how many bytes came.
    fn read<R: Read>(&mut self, input: &mut R) -> Result<usize, ReadFailed>
        ensures loans { KeepsBuffer self.old self.new }
        ensures reads { ReadEnsures self.old self.new result }
        ensures takes { ReadTakes (R.remaining input.old) (R.remaining input.new) self.old self.new result }
    {
        let mut part = [0u8; PART];
        let count = stdin::read(input, &mut part)?;
        self.feed(&part[..count]);
        Ok(count)
    }

    // Reads anew, to the input's end. A proved loop has to end, and nothing says that an input does: no run uses this
    // count up.
    //
    // The program `session` has this loop too, over lines and answers, which may fail. One for both is no plainer: it
    // would take a trait with an error type, what may come, a relation for a part and a law that another may come.
    pub fn receive<R: Read>(&mut self, input: &mut R) -> Result<(), ReadFailed>
        ensures loans { KeepsBuffer self.old self.new }
        ensures reads { Reads self.old self.new result }
        ensures ended { OnOk result (IsAtEnd (R.remaining input.new)) }
        ensures takes { Taken (R.remaining input.old) (R.remaining input.new) self.new }
    {
        self.len = 0;
        for _ in 0..u64::MAX {
            if self.read(input)? == 0 {
                return Ok(());
            }
        }
        Err(ReadFailed)
    }
}
