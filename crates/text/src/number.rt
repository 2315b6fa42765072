// Numbers (document 01: "Numbers have 1 to 8 digits and no needless leading zero.").
ghost use Rattle.std.specs.Prelude.{◌≡◌, ◌≤◌, length};
ghost use Rattle.text.specs.Limits.{most_digits};
ghost use Rattle.text.specs.Number.{digits_from, needless as needless1, number_of};

// The number that digits make, if all are digits.
fn read_digits(s: &[u8]) -> Option<usize>
    requires { length s.now ≤ most_digits }
    ensures { result ≡ digits_from 0 s.now }
{
    let mut v = 0;
    for &x in s {
        if !x.is_ascii_digit() {
            return None;
        }
        v = 10 * v + usize::from(x - b'0');
    }
    Some(v)
}

#[tactic(auto, unfolding(crate::specs::Number::needless))]
fn needless(s: &[u8]) -> bool
    ensures { result ≡ needless1 s.now }
{
    matches!(s, [b'0', _, ..])
}

// A number of 1 to `most` digits. (No FromStr or TryFrom here, in words.rt and in names.rt: a line is bytes and no
// `str`, and an error would say no more than None.)
#[tactic(auto, unfolding(crate::specs::Number::number_of))]
pub fn read(s: &[u8], most: usize) -> Option<usize>
    requires { most ≤ most_digits }
    ensures { result ≡ number_of most s.now }
{
    if s.is_empty() || most < s.len() || needless(s) {
        return None;
    }
    read_digits(s)
}
