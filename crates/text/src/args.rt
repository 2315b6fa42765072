// The numbers of a line (document 01: "wrong count of fields, malformed number").
ghost use Rattle.std.specs.Prelude.{◌≡◌, ◌≤◌, length, Some};
ghost use Rattle.text.specs.Limits.{most_digits};
ghost use Rattle.text.specs.Split.{fields_after};
ghost use Rattle.text.specs.Args.{push, numbers};

use crate::number;

// At most four numbers. (Each count is a case of its own, so that a call says in its pattern how many it has. A pattern
// of a slice, as `[d, w]`, would need the numbers in a buffer with a length beside it, since there is no heap.)
#[derive(Clone, Copy)]
pub enum Args {
    Zero,
    One(usize),
    Two(usize, usize),
    Three(usize, usize, usize),
    Four(usize, usize, usize, usize),
}

impl Args {
    // One number more, if there are at most four then.
    fn push(self, v: usize) -> Option<Args>
        ensures { result ≡ push self v }
    {
        match self {
            Args::Zero => Some(Args::One(v)),
            Args::One(a) => Some(Args::Two(a, v)),
            Args::Two(a, b) => Some(Args::Three(a, b, v)),
            Args::Three(a, b, c) => Some(Args::Four(a, b, c, v)),
            Args::Four(_, _, _, _) => None,
        }
    }
}

// The numbers, of at most `most` digits, in the fields after the one that ends at e. None where one is malformed or
// there are more than four, so that 1 comes before every other refusal.
pub(crate) fn after(line: &[u8], e: usize, most: usize) -> Option<Args>
    requires { (e ≤ length line.now) × (most ≤ most_digits) }
    ensures { result ≡ numbers most (Some Args.Zero) (fields_after line.now e) }
{
    let mut args = Args::Zero;
    if e == line.len() {
        return Some(args);
    }
    for field in line[e + 1..].split(|&x| x == b'\t') {
        args = args.push(number::read(field, most)?)?;
    }
    Some(args)
}
