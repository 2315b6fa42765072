// The answer is about a whole text, or there is none.
ghost use Rattle.std.specs.Prelude.{◌≡◌, Some};
ghost use Rattle.verdict.specs.Outcome.{printed, JudgeEnsures};
ghost use Rattle.verdict.specs.declared.outcome.Unjudged.TheVariants.{ReadFailed as Unread};

use crate::TEXT;
use crate::input::Buffer;
use std::fmt;
use stdin::ReadFailed;
use text::judge;
use text::ruling::VerdictResult;

// The text is longer than the buffer; or reading failed, and nobody knows what is missing.
#[derive(Clone, Copy)]
pub enum Unjudged {
    TooLong,
    ReadFailed,
}

impl From<ReadFailed> for Unjudged {
    ghost from_gives = { λ _ e. e ≡ Unread };

    fn from(_e: ReadFailed) -> Self {
        Self::ReadFailed
    }
}

impl fmt::Display for Unjudged {
    ghost output = { λ e. Some (printed e) };

    fn fmt<W: fmt::Write>(&self, f: &mut fmt::Formatter<W>) -> fmt::Result {
        match self {
            Unjudged::TooLong => write!(f, "the text is longer than {TEXT} bytes"),
            Unjudged::ReadFailed => write!(f, "reading failed"),
        }
    }
}

// The input has ended.
pub fn judge(
    buffer: &Buffer,
    store: &mut [u8],
    cache: &mut [u64],
    out: &mut [u8],
) -> Result<VerdictResult, Unjudged>
    ensures { JudgeEnsures buffer.now store.old
        out.old out.new result }
{
    if buffer.text.len() < buffer.len {
        return Err(Unjudged::TooLong);
    }
    Ok(judge::verdict(&buffer.text[..buffer.len], store, cache, out))
}
