// Bytes and numbers put at a place of the output.
ghost use Rattle.std.specs.Prelude.{◌≡◌, ◌++◌, ◌+◌, ◌≤◌, ◌<◌, length};
ghost use Rattle.text.specs.Print.{WriteEnsures, decimal};

// (`as`: d < 10 by contract, and TryFrom would answer a Result that cannot fail.)
fn digit_byte(d: usize) -> u8
    requires { d < 10 }
    ensures { result ≡ 48 + d }
{
    b'0' + d as u8
}

// Puts s at a place, and answers the place after it. (Output and place are two parameters, and that there is room is
// asked at each function that puts: a struct of them would hold a lent slice, and each promise would have to say that
// it is still the same one.)
pub(crate) fn put_bytes(out: &mut [u8], at: usize, s: &[u8]) -> usize
    requires { at + length s.now ≤ length out.old }
    ensures { WriteEnsures out.old at s.now out.new result }
{
    let end = at + s.len();
    out[at..end].copy_from_slice(s);
    end
}

// Puts a number's digits at a place (std writes digits to a sink that may fail), and answers the place after them.
pub fn number(out: &mut [u8], at: usize, n: usize) -> usize
    requires { at + length (decimal n) ≤ length out.old }
    ensures { WriteEnsures out.old at (decimal n) out.new result }
{
    if n < 10 {
        out[at] = digit_byte(n);
        return at + 1;
    }
    let e = number(out, at, n / 10);
    out[e] = digit_byte(n % 10);
    e + 1
}

// Puts a word and a number at a place, and answers the place after them.
pub(crate) fn labelled(out: &mut [u8], at: usize, word: &[u8], n: usize) -> usize
    requires { at + length word.now + length (decimal n) ≤ length out.old }
    ensures { WriteEnsures out.old at (word.now ++ decimal n) out.new result }
{
    let e = put_bytes(out, at, word);
    number(out, e, n)
}
