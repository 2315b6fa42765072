// Arithmetic on weights: whole numbers modulo the prime 65537 (document 01, "The field").
#![tactic(auto)]

ghost use Rattle.std.specs.Prelude.{◌≡◌, ◌%◌, ◌≤◌, ◌<◌};
ghost use Rattle.field.specs.Weight.{modulus, to_weight, plus_w, times_w, inverse_w};
ghost use Rattle.field.specs.Field.{Represents, DescentStep};

// A weight, below the modulus: what its functions ask for and promise. (A plain number: a record's bytes are read as
// weights where nothing says yet that they are below the modulus.)
pub type Weight = u64;

pub const MODULUS: u64 = 65537;

pub fn add(a: Weight, b: Weight) -> Weight
    requires { (a < modulus) × (b < modulus) }
    ensures { Represents result (plus_w (to_weight a) (to_weight b)) }
{
    let s = a + b;
    if s < MODULUS { s } else { s - MODULUS }
}

// The remainder of a product: 65536 is -1, so its upper part is taken from its lower part.
fn reduce(x: u64) -> Weight
    requires { x ≤ 4294967296 }
    ensures { result ≡ x % modulus }
{
    let low = x % 65536;
    let high = x / 65536;
    if high <= low {
        low - high
    } else {
        low + MODULUS - high
    }
}

pub fn mul(a: Weight, b: Weight) -> Weight
    requires { (a < modulus) × (b < modulus) }
    ensures { Represents result (times_w (to_weight a) (to_weight b)) }
{
    reduce(a * b)
}

// On the way to an inverse: what is looked for is `factor` times the inverse of `rest`.
#[derive(Clone, Copy)]
struct Descent {
    factor: Weight,
    rest: Weight,
}

// The modulus is q times the rest and `low`, or q + 1 times the rest less `high`: the rest's inverse is -q times that
// of `low`, and q + 1 times that of `high`. The smaller of the two is the next rest.
fn descend(d: Descent) -> Descent
    requires { (d.factor < modulus) × ((1 < d.rest) × (d.rest < modulus)) }
    ensures { DescentStep d.factor d.rest result.factor result.rest }
{
    let q = MODULUS / d.rest;
    let low = MODULUS % d.rest;
    let high = d.rest - low;
    if low < high {
        let factor = mul(d.factor, MODULUS - q);
        return Descent { factor, rest: low };
    }
    let factor = mul(d.factor, q + 1);
    Descent { factor, rest: high }
}

// The inverse of a nonzero weight, and 0 for 0. Most weights of a diagram are 1 and take no step; others take 11 at
// most.
pub fn inverse(a: Weight) -> Weight
    requires { a < modulus }
    ensures { Represents result (inverse_w (to_weight a)) }
{
    if a == 0 {
        return 0;
    }
    let mut d = Descent { factor: 1, rest: a };
    // How many steps there are shows only on the way, so no range has them.
    while 1 < d.rest {
        d = descend(d);
    }
    d.factor
}
