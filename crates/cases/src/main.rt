// Writes the verdict on each text of standard input. A byte 0 ends a text. Before each stands a line with the capacity
// in nodes, which is not part of the text.
//
// The stored output comes from an independent calculation on plain tables and on matrices.
#![tactic(auto)]

mod run;

use stdin::parts::Parts;

// The longest text, with its first line. (Each program says for itself what memory it has.)
const TEXT: usize = 8192;

// 2048 nodes of 16 bytes.
const STORE: usize = 32768;

// 4096 remembered results of four words.
const CACHE: usize = 16384;

// How many bytes are read at once.
const PART: usize = 4096;

fn main(rt: HostRuntime) {
    let stdout = rt.stdout();
    let mut part = [0u8; PART];
    let mut text = [0u8; TEXT];
    let mut store = [0u8; STORE];
    let mut cache = [0u64; CACHE];
    let mut input = Parts::over(rt.stdin(), &mut part);
    // A proved loop has to end, and nothing says that an input does: no run uses this count up. (`texts`, `script` and
    // `cases` have this loop each: one for the three would take a closure that borrows what each works with, and be no
    // plainer.)
    for _ in 0..u64::MAX {
        // A read that fails counts as the input's end, and a last part without its byte 0 is no text.
        let Ok(Some(len)) = input.read_text(0, &mut text) else {
            break;
        };
        // The store and the cache go on from text to text as they are left.
        run::run(stdout, text.get(..len), &mut store, &mut cache);
    }
}
