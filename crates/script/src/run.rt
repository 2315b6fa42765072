// One session, and what it answers.
use crate::header;
use crate::header::Header;
use std::io::{Print, Stdout};
use text::{session, split};

// The longest output.
const OUTPUT: usize = 4096;

// The first line, and the text after it.
fn parts(text: &[u8]) -> Option<(Header, &[u8])> {
    let (line, rest) = split::first_line(text)?;
    Some((header::read(line)?, rest))
}

// What the session prints, and how it ended. What cannot be written is left out, here and below.
fn answer(stdout: Stdout, text: &[u8], store: &mut [u8], cache: &mut [u64], out: &mut [u8]) {
    let r = session::session(text, store, cache, out);
    stdout.write_all(&out[..r.bytes]).unwrap_or(());
    println!(stdout; "=\t{}\t{}\t{}\t{}", r.code, r.lines, r.bytes, r.count).unwrap_or(());
}

// A text that is longer than the buffer is not run. The session is lent the first bytes of the store and of the output.
pub fn run(stdout: Stdout, text: Option<&[u8]>, store: &mut [u8], cache: &mut [u64]) {
    let Some(text) = text else {
        return stdout.write_all(b"too long\n").unwrap_or(());
    };
    let Some((Header { capacity, room }, text)) = parts(text) else {
        return stdout.write_all(b"bad header\n").unwrap_or(());
    };
    if store.len() / 16 < capacity || OUTPUT < room {
        return stdout.write_all(b"bad header\n").unwrap_or(());
    }
    let mut out = [0u8; OUTPUT];
    answer(
        stdout,
        text,
        &mut store[..16 * capacity],
        cache,
        &mut out[..room],
    );
}
