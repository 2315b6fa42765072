// How a session ends.
ghost use Rattle.std.specs.Prelude.{◌≡◌, Some};
ghost use Rattle.session.specs.Answer.{memory_of, state_of, KeepsSession};
ghost use Rattle.session.specs.Outcome.{printed, FinishRequires, FinishEnsures};
ghost use Rattle.text.specs.Engine.{contents};
ghost use Rattle.session.specs.declared.outcome.Stopped.TheVariants.{ReadFailed as Unread, WriteFailed as Unwritten};

use crate::answer::Session;
use crate::output::{Output, WriteFailed};
use std::fmt;
use stdin::ReadFailed;

// Reading failed, and the line that it cut was not run; or writing failed, and no line after that was run.
#[derive(Clone, Copy)]
pub enum Stopped {
    ReadFailed,
    WriteFailed,
}

impl From<ReadFailed> for Stopped {
    ghost from_gives = { λ _ s. s ≡ Unread };

    fn from(_e: ReadFailed) -> Self {
        Self::ReadFailed
    }
}

impl From<WriteFailed> for Stopped {
    ghost from_gives = { λ _ s. s ≡ Unwritten };

    fn from(_e: WriteFailed) -> Self {
        Self::WriteFailed
    }
}

impl fmt::Display for Stopped {
    ghost output = { λ s. Some (printed s) };

    fn fmt<W: fmt::Write>(&self, f: &mut fmt::Formatter<W>) -> fmt::Result {
        match self {
            Stopped::ReadFailed => write!(f, "reading failed"),
            Stopped::WriteFailed => write!(f, "writing failed"),
        }
    }
}

impl<'l, 'b, 'a, 'o, W: Output> Session<'l, 'b, 'a, 'o, W> {
    // No more is read. Where more could have come, the line that has begun is not run.
    pub fn finish(&mut self, received: Result<(), Stopped>) -> Result<(), Stopped>
        requires { FinishRequires (memory_of self.old) (state_of W.outcomes self.old) received }
        ensures loans { KeepsSession self.old self.new }
        ensures squeeze { self.new.squeeze ≡ self.old.squeeze }
        ensures finishes { FinishEnsures (memory_of self.old) (state_of W.outcomes self.old) received
            (memory_of self.new).store (contents self.new.engine.now) (W.outcomes self.new.output.now) result }
    {
        received?;
        Ok(self.last()?)
    }
}
