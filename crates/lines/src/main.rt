// Writes what each line of standard input is read as: the call, or `no` and its number.
#![tactic(auto)]

mod show;

ghost use Rattle.std.specs.Prelude.{◌≤◌, length};
ghost use Rattle.text.specs.Limits.{line_room};
ghost use Rattle.text.specs.Squeeze.{SqueezeFits};

use std::io::Stdout;
use text::limits::LINE_ROOM;
use text::squeeze::Squeeze;

// How many bytes are read at once. (An array: the memory is fixed, with no heap.)
const PART: usize = 4096;

// One byte more of the input: a line is shown where it ends.
fn step(stdout: Stdout, line: &mut [u8], squeeze: Squeeze, b: u8) -> Squeeze
    requires { (line_room ≤ length line.old) × SqueezeFits squeeze }
    ensures { SqueezeFits result }
{
    if b == b'\n' {
        show::line(stdout, &line[..squeeze.length]);
        return Squeeze::none();
    }
    squeeze.push(line, b)
}

// The bytes that come next.
fn feed(stdout: Stdout, line: &mut [u8], squeeze: Squeeze, part: &[u8]) -> Squeeze
    requires { (line_room ≤ length line.old) × SqueezeFits squeeze }
    ensures { SqueezeFits result }
{
    let mut next = squeeze;
    for b in part {
        next = step(stdout, line, next, *b);
    }
    next
}

fn main(rt: HostRuntime) {
    let stdout = rt.stdout();
    let mut input = rt.stdin();
    let mut part = [0u8; PART];
    let mut line = [0u8; LINE_ROOM];
    let mut squeeze = Squeeze::none();
    // A proved loop has to end, and nothing says that an input does: no run uses this count up.
    for _ in 0..u64::MAX {
        // A read that fails counts as the input's end.
        let count = stdin::read(&mut input, &mut part).unwrap_or(0);
        if count == 0 {
            break;
        }
        squeeze = feed(stdout, &mut line, squeeze, &part[..count]);
    }
    // "a last part without LF counts unless empty"; of a line that has a byte, one is kept.
    if 0 < squeeze.length {
        show::line(stdout, &line[..squeeze.length]);
    }
}
