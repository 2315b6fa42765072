// Writes what each verdict text of standard input says: `good`, its n, the line of `=` and the number of lines; or
// `no`, a fault's number and its line. A byte 0 ends a text.
#![tactic(auto)]

use std::io;
use std::io::{Print, Stdout};
use stdin::parts::Parts;
use text::check;

// The longest text, and how many bytes are read at once. (Arrays: the memory is fixed, with no heap.)
const TEXT: usize = 65536;

const PART: usize = 4096;

// One that is longer than the buffer is not checked.
fn show(stdout: Stdout, text: Option<&[u8]>) -> io::Result<()> {
    let Some(text) = text else {
        return stdout.write_all(b"too long\n");
    };
    match check::check(text) {
        Ok(good) => println!(stdout; "good {} {} {}", good.n, good.parting, good.count),
        Err(f) => println!(stdout; "no {} {}", f.fault.number(), f.line),
    }
}

fn main(rt: HostRuntime) {
    let stdout = rt.stdout();
    let mut part = [0u8; PART];
    let mut text = [0u8; TEXT];
    let mut input = Parts::over(rt.stdin(), &mut part);
    // A proved loop has to end, and nothing says that an input does: no run uses this count up. (`texts`, `script` and
    // `cases` have this loop each: one for the three would take a closure that borrows what each works with, and be no
    // plainer.)
    for _ in 0..u64::MAX {
        // A read that fails counts as the input's end, and a last part without its byte 0 is no text.
        let Ok(Some(len)) = input.read_text(0, &mut text) else {
            break;
        };
        // What cannot be written is left out.
        show(stdout, text.get(..len)).unwrap_or(());
    }
}
