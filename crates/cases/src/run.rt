// One text, and its verdict.
use std::io::{Print, Stdout};
use text::limits::VERDICT_ROOM;
use text::{judge, number, split};

// The capacity that the first line asks for, and the text after that line.
fn header(text: &[u8]) -> Option<(usize, &[u8])> {
    let (line, rest) = split::first_line(text)?;
    Some((number::read(line, 8)?, rest))
}

// What cannot be written is left out, here and below.
fn answer(stdout: Stdout, text: &[u8], store: &mut [u8], cache: &mut [u64]) {
    let mut out = [0u8; VERDICT_ROOM];
    let v = judge::verdict(text, store, cache, &mut out);
    stdout.write_all(&out[..v.bytes]).unwrap_or(());
}

// A text that is longer than the buffer is not judged. The verdict is lent the first bytes of the store.
pub fn run(stdout: Stdout, text: Option<&[u8]>, store: &mut [u8], cache: &mut [u64]) {
    let Some(text) = text else {
        return stdout.write_all(b"too long\n").unwrap_or(());
    };
    let Some((capacity, text)) = header(text) else {
        return stdout.write_all(b"bad capacity\n").unwrap_or(());
    };
    if store.len() / 16 < capacity {
        return stdout.write_all(b"bad capacity\n").unwrap_or(());
    }
    answer(stdout, text, &mut store[..16 * capacity], cache);
}
