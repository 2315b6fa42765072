// Runs the sessions of standard input, each by the one call that document 01 names. A byte 0 ends a session. Its first
// line has the capacity in nodes and the length of the output in bytes, with a tab between them; the session's text
// follows.
//
// Of each session it writes the bytes that the session printed, and a line: `=`, the code, lines answered, bytes
// written and the node count, with tabs between them. The stored output comes from an independent calculation on plain
// tables of values.
#![tactic(auto)]

mod header;
mod run;

use stdin::parts::Parts;

// The longest text of a session, with its first line. (Each program says for itself what memory it has.)
const TEXT: usize = 8192;

// 2048 nodes of 16 bytes.
const STORE: usize = 32768;

// 1024 remembered results of four words.
const CACHE: usize = 4096;

// How many bytes are read at once.
const PART: usize = 4096;

fn main(rt: HostRuntime) {
    let stdout = rt.stdout();
    let mut part = [0u8; PART];
    let mut text = [0u8; TEXT];
    let mut store = [0u8; STORE];
    let mut cache = [0u64; CACHE];
    let mut input = Parts::over(rt.stdin(), &mut part);
    let mut cached = true;
    // A proved loop has to end, and nothing says that an input does: no run uses this count up. (`texts`, `script` and
    // `cases` have this loop each: one for the three would take a closure that borrows what each works with, and be no
    // plainer.)
    for _ in 0..u64::MAX {
        // A read that fails counts as the input's end, and a last part without its byte 0 is no session.
        let Ok(Some(len)) = input.read_text(0, &mut text) else {
            break;
        };
        // The store and the cache go on from session to session as they are left. Every other session is lent a cache
        // of no words.
        let lent = if cached { CACHE } else { 0 };
        run::run(stdout, text.get(..len), &mut store, &mut cache[..lent]);
        cached = !cached;
    }
}
