// An input's lines, from parts that end anywhere. After the first answer that could not be written no line is run:
// answer k belongs to line k.
ghost use Rattle.std.specs.Prelude.{◌≡◌, [], ◌∷◌, is_err};
ghost use Rattle.session.specs.Answer.{memory_of, state_of, KeepsSession};
ghost use Rattle.session.specs.Feed.{FeedRequires, TakesIn, FeedEnsures, LastEnsures};
ghost use Rattle.session.specs.Output.{any_lost};
ghost use Rattle.text.specs.Engine.{contents};

use crate::answer::Session;
use crate::output::{Output, WriteFailed};
use text::squeeze::Squeeze;

impl<'l, 'b, 'a, 'o, W: Output> Session<'l, 'b, 'a, 'o, W> {
    // Whether a line may still be run: where a write has failed, none is.
    fn may_run(&self) -> Result<(), WriteFailed>
        ensures { is_err result ≡ any_lost (W.outcomes self.now.output.now) }
    {
        if self.output.lost() {
            return Err(WriteFailed);
        }
        Ok(())
    }

    // One byte. Whether a write has failed before is asked once for a part, in `feed`.
    fn step(&mut self, b: u8) -> Result<(), WriteFailed>
        requires { FeedRequires (memory_of self.old) (state_of W.outcomes self.old) }
        ensures loans { KeepsSession self.old self.new }
        ensures takes { TakesIn (b ∷ []) (memory_of self.old) (state_of W.outcomes self.old)
            (memory_of self.new) (state_of W.outcomes self.new) result }
    {
        if b == b'\n' {
            self.answer()?;
            self.squeeze = Squeeze::none();
            return Ok(());
        }
        self.squeeze = self.squeeze.push(self.line, b);
        Ok(())
    }

    // The bytes that come next. Where a write has failed before, they are left out.
    pub fn feed(&mut self, part: &[u8]) -> Result<(), WriteFailed>
        requires { FeedRequires (memory_of self.old) (state_of W.outcomes self.old) }
        ensures loans { KeepsSession self.old self.new }
        ensures feeds { FeedEnsures part.now (memory_of self.old) (state_of W.outcomes self.old)
            (memory_of self.new) (state_of W.outcomes self.new) result }
    {
        self.may_run()?;
        for b in part {
            self.step(*b)?;
        }
        Ok(())
    }

    // "a last part without LF counts unless empty"; of a line that has a byte, one is kept. Where a write has failed
    // before, no line is run.
    pub fn last(&mut self) -> Result<(), WriteFailed>
        requires { FeedRequires (memory_of self.old) (state_of W.outcomes self.old) }
        ensures loans { KeepsSession self.old self.new }
        ensures squeeze { self.new.squeeze ≡ self.old.squeeze }
        ensures ends { LastEnsures (memory_of self.old) (state_of W.outcomes self.old)
            (memory_of self.new).store (contents self.new.engine.now) (W.outcomes self.new.output.now) result }
    {
        self.may_run()?;
        if 0 < self.squeeze.length {
            return self.answer();
        }
        Ok(())
    }
}
