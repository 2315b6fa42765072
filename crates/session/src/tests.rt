// What a session does where a write fails, and that what was lent is as long as before.
ghost use Rattle.std.specs.Prelude.{◌≡◌, [], ◌<◌, ◌≤◌, length};
ghost use Rattle.session.specs.Output.{recorded};
ghost use Rattle.text.specs.Limits.{line_room};

use crate::answer::Session;
use crate::output::{Output, WriteFailed};
use diagram::diagram::Diagram;
use diagram::registers::Registers;
use std::test::Fail;
use text::engine::Engine;
use text::limits::LINE_ROOM;
use text::squeeze::Squeeze;

// Its first write succeeds, and the second one fails.
#[derive(Drop)]
struct OneWrite {
    said: Result<u64, u64>,
}

impl OneWrite {
    fn new() -> OneWrite
        ensures { recorded result.said ≡ [] }
    {
        OneWrite { said: Ok(0) }
    }
}

impl Output for OneWrite {
    ghost outcomes = { λ w. recorded w.said };

    #[tactic(auto, using(crate::specs::OutputLaws::recorded_lost))]
    fn lost(&self) -> bool {
        self.said.is_err()
    }

    #[tactic(auto, using(crate::specs::OutputLaws::one_more_recorded))]
    fn put(&mut self, _answer: &[u8]) -> Result<(), WriteFailed> {
        let Ok(written) = self.said else {
            return Err(WriteFailed);
        };
        if written < 1 {
            self.said = Ok(written + 1);
            return Ok(());
        }
        self.said = Err(written);
        Err(WriteFailed)
    }
}

// The cache that was lent is as long as before a start and a run: it still has its first word.
fn first_word(engine: &mut Engine, out: &mut [u8]) -> u64
    requires { 0 < length engine.old.diagram.now.cache.now }
{
    engine.start();
    engine.resume(b"unit\t0\t1\n", out, 1);
    engine.diagram.cache[0]
}

// Three lines, and then a fourth one; whether a failed write was said of both parts.
fn feed_twice<'l, 'b, 'a>(
    line: &'l mut [u8],
    engine: &'l mut Engine<'b, 'a>,
    output: &mut OneWrite,
) -> bool
    requires room { line_room ≤ length line.old }
{
    engine.start();
    let mut session = Session {
        line,
        squeeze: Squeeze::none(),
        engine,
        output,
    };
    let three = session.feed(b"put\t0\t1\nput\t1\t2\nput\t2\t3\n");
    let fourth = session.feed(b"put\t3\t4\n");
    three.is_err() && fourth.is_err()
}

#[test]
fn no_line_after_a_failed_write(rt: HostRuntime) -> Result<(), Fail> {
    let mut line = [0u8; LINE_ROOM];
    let mut store = [0u8; 1024];
    let mut cache = [0u64; 64];
    let mut diagram = Diagram::over(&mut store, &mut cache);
    let mut engine = Engine {
        diagram: &mut diagram,
        registers: Registers::empty(),
    };
    let mut output = OneWrite::new();
    assert!(rt; feed_twice(&mut line, &mut engine, &mut output));
    assert_eq!(rt; output.said, Err(1));
    // The second line is run, its answer lost; none after it is.
    assert!(rt; engine.registers.get(1).is_some());
    assert!(rt; engine.registers.get(2).is_none());
    assert!(rt; engine.registers.get(3).is_none());
    Ok(())
}

#[test]
fn cache_as_long_as_before(rt: HostRuntime) -> Result<(), Fail> {
    let mut store = [0u8; 1024];
    let mut cache = [0u64; 64];
    let mut out = [0u8; 64];
    let mut diagram = Diagram::over(&mut store, &mut cache);
    let mut engine = Engine {
        diagram: &mut diagram,
        registers: Registers::empty(),
    };
    // `unit` remembers nothing.
    assert_eq!(rt; first_word(&mut engine, &mut out), 0);
    assert!(rt; engine.contents().registers.get(0).is_some());
    Ok(())
}
