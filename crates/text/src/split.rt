// The parts of a text: where one ends. (Line and place are two parameters, and no slice of the rest: what is read of a
// line is stated by its places.)
ghost use Rattle.std.specs.Prelude.{◌≡◌, ◌≤◌, length, MatchOption};
ghost use Rattle.text.specs.Text.{LF};
ghost use Rattle.text.specs.Split.{Ends, FieldAfter, line_of, Without, FirstLine};

// The place of the first byte b from a on, or the length. (No Option: where there is no b, the last part ends there. A
// first field or line is cut off with it where the place is wanted too, to read on from there.)
pub fn end(s: &[u8], a: usize, b: u8) -> usize
    requires { a ≤ length s.now }
    ensures { Ends b s.now a result }
{
    let rest = &s[a..];
    a + rest.iter().position(|&x| x == b).unwrap_or(rest.len())
}

// The field after the one that ends at e, and where it ends; None where e is the line's end.
pub(crate) fn field_after(line: &[u8], e: usize) -> Option<(&[u8], usize)>
    requires { e ≤ length line.now }
    ensures { MatchOption result (length line.now ≤ e) (λ p. FieldAfter line.now e p.0.now p.1) }
{
    if e == line.len() {
        return None;
    }
    let a = e + 1;
    let f = end(line, a, b'\t');
    Some((&line[a..f], f))
}

// A line without its LF, which the last line of a text may lack.
pub(crate) fn line_of(part: &[u8]) -> &[u8]
    ensures { result.now ≡ line_of part.now }
{
    part.strip_suffix(b"\n".as_slice()).unwrap_or(part)
}

// The first line without its LF, and what comes after it, if there is an LF.
pub fn first_line(text: &[u8]) -> Option<(&[u8], &[u8])>
    ensures { MatchOption result (Without LF text.now) (λ p. FirstLine text.now p.0.now p.1.now) }
{
    let e = end(text, 0, b'\n');
    if e == text.len() {
        return None;
    }
    Some((&text[..e], &text[e + 1..]))
}
