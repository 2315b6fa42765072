// Where answers go.
ghost use Rattle.std.specs.Prelude.{◌≡◌, [], List, Bool};
ghost use Rattle.session.specs.Output.{any_lost, PutEnsures, recorded};

use std::io::{Print, Stdout};

// Writing an answer failed.
#[derive(Clone, Copy)]
pub struct WriteFailed;

// Answers are written to it, each by one write.
pub trait Output {
    // What the writes have said so far, in order: whether each one succeeded.
    ghost outcomes: { Self → List Bool };

    // Whether a write has failed.
    fn lost(&self) -> bool
        ensures { result ≡ any_lost (outcomes self.now) };

    // Writes an answer. After a write that failed there is no other: answer k belongs to line k.
    fn put(&mut self, answer: &[u8]) -> Result<(), WriteFailed>
        ensures { PutEnsures (outcomes self.old) (outcomes self.new) result };
}

// Standard output. What a write to it does no contract says, so what each one answered is kept: n of them succeeded
// (`Ok(n)`), or n did and the one after them failed (`Err(n)`).
#[derive(Drop)]
pub struct Recorded {
    stdout: Stdout,
    said: Result<u64, u64>,
}

impl Recorded {
    pub fn new(stdout: Stdout) -> Recorded
        ensures { recorded result.said ≡ [] }
    {
        Recorded {
            stdout,
            said: Ok(0),
        }
    }
}

impl Output for Recorded {
    ghost outcomes = { λ w. recorded w.said };

    #[tactic(auto, using(crate::specs::OutputLaws::recorded_lost))]
    fn lost(&self) -> bool {
        self.said.is_err()
    }

    // No run uses the count up; where it is, nothing more is written.
    #[tactic(auto, using(crate::specs::OutputLaws::one_more_recorded))]
    fn put(&mut self, answer: &[u8]) -> Result<(), WriteFailed> {
        let Ok(written) = self.said else {
            return Err(WriteFailed);
        };
        if written < u64::MAX && self.stdout.write_all(answer).is_ok() {
            self.said = Ok(written + 1);
            return Ok(());
        }
        self.said = Err(written);
        Err(WriteFailed)
    }
}
