// A session's first line.
use text::{number, split};

// The capacity in nodes and the length of the output in bytes.
#[derive(Clone, Copy)]
pub struct Header {
    pub capacity: usize,
    pub room: usize,
}

pub fn read(line: &[u8]) -> Option<Header> {
    let e = split::end(line, 0, b'\t');
    if e == line.len() {
        return None;
    }
    let capacity = number::read(&line[..e], 8)?;
    let room = number::read(&line[e + 1..], 8)?;
    Some(Header { capacity, room })
}
