// An input, part after part.
ghost use Rattle.std.specs.Io.KnownBytes.{IsAtEnd};
ghost use Rattle.std.specs.Prelude.{◌≡◌, IfOk, OnOk};
ghost use Rattle.session.specs.Answer.{memory_of, state_of, KeepsSession};
ghost use Rattle.session.specs.Feed.{FeedRequires};
ghost use Rattle.session.specs.Input.{writing_of, ReadEnsures, ReceiveEnsures, Taken};

use crate::answer::Session;
use crate::outcome::Stopped;
use crate::output::Output;
use std::io::Read;

// How many bytes are read at once. (An array: the memory is fixed, with no heap. Each program says for itself what
// memory it has, as in main.rt.)
const PART: usize = 4096;

impl<'l, 'b, 'a, 'o, W: Output> Session<'l, 'b, 'a, 'o, W> {
    // Reads once, answers the lines that end in what came, and says how many bytes came.
    fn read<R: Read>(&mut self, input: &mut R) -> Result<usize, Stopped>
        requires { FeedRequires (memory_of self.old) (state_of W.outcomes self.old) }
        ensures loans { KeepsSession self.old self.new }
        ensures reads { ReadEnsures (memory_of self.old) (state_of W.outcomes self.old)
            (memory_of self.new) (state_of W.outcomes self.new) result }
        ensures ended { IfOk result (λ count. count ≡ 0 → IsAtEnd (R.remaining input.new)) }
        ensures takes { Taken (R.remaining input.old) (R.remaining input.new)
            (memory_of self.old) (state_of W.outcomes self.old)
            (memory_of self.new) (state_of W.outcomes self.new) (writing_of result) }
    {
        let mut part = [0u8; PART];
        let count = stdin::read(input, &mut part)?;
        self.feed(&part[..count])?;
        Ok(count)
    }

    // Reads to the input's end, or to the first answer that could not be written. A proved loop has to end, and nothing
    // says that an input does: no run uses this count up.
    //
    // The program `verdict` has this loop too, over a buffer. One for both is no plainer: it would take a trait with an
    // error type, what may come, a relation for a part and a law that another may come.
    pub fn receive<R: Read>(&mut self, input: &mut R) -> Result<(), Stopped>
        requires { FeedRequires (memory_of self.old) (state_of W.outcomes self.old) }
        ensures loans { KeepsSession self.old self.new }
        ensures receives { ReceiveEnsures (memory_of self.old) (state_of W.outcomes self.old)
            (memory_of self.new) (state_of W.outcomes self.new) result }
        ensures ended { OnOk result (IsAtEnd (R.remaining input.new)) }
        ensures takes { Taken (R.remaining input.old) (R.remaining input.new)
            (memory_of self.old) (state_of W.outcomes self.old)
            (memory_of self.new) (state_of W.outcomes self.new) (writing_of result) }
    {
        for _ in 0..u64::MAX {
            if self.read(input)? == 0 {
                return Ok(());
            }
        }
        Err(Stopped::ReadFailed)
    }
}
