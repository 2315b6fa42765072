// Gate calls: "`gate d name q`, or with a second qubit".
#![tactic(auto, unfolding(crate::specs::Args::by_count))]

ghost use Rattle.std.specs.Prelude.{◌≡◌, ◌≤◌, length, Some};
ghost use Rattle.text.specs.Split.{fields_after};
ghost use Rattle.text.specs.Gate.{refusal_of, named_call, gate_call_of, gate_call_fields};

use crate::args::Args;
use crate::call::{Call, Refusal};
use crate::limits::{MOST_DIGITS, MOST_QUBITS};
use crate::names::Misplaced;
use crate::{args, call, names, number, split};
use diagram::gate::Gate;
use diagram::registers::RegisterNumber;

impl From<Misplaced> for Refusal {
    ghost from_gives = { λ m r. r ≡ refusal_of m };

    fn from(m: Misplaced) -> Refusal {
        match m {
            Misplaced::Qubit => Refusal::Range,
            Misplaced::Equal => Refusal::Equal,
        }
    }
}

// The call of the gate of a name, if that is one.
fn named(d: RegisterNumber, g: Option<Gate>) -> Result<Call, Refusal>
    ensures { result ≡ named_call d g }
{
    let g = g.ok_or(Refusal::Name)?;
    Ok(Call::Gate(d, names::placed(g, MOST_QUBITS)?))
}

fn make(d: RegisterNumber, name: &[u8], qubits: Args) -> Result<Call, Refusal>
    ensures { result ≡ gate_call_of d name.now qubits }
{
    match qubits {
        Args::One(q) => {
            call::check_register(d)?;
            named(d, names::one_qubit(name, q))
        }
        Args::Two(p, q) => {
            call::check_register(d)?;
            named(d, names::two_qubits(name, p, q))
        }
        _ => Err(Refusal::Malformed),
    }
}

// The gate call whose word ends at e.
pub(crate) fn read(line: &[u8], e: usize) -> Result<Call, Refusal>
    requires { e ≤ length line.now }
    ensures { result ≡ gate_call_fields (fields_after line.now e) }
{
    let (d, f) = split::field_after(line, e).ok_or(Refusal::Malformed)?;
    let (name, g) = split::field_after(line, f).ok_or(Refusal::Malformed)?;
    let d = number::read(d, MOST_DIGITS).ok_or(Refusal::Malformed)?;
    let qubits = args::after(line, g, MOST_DIGITS).ok_or(Refusal::Malformed)?;
    make(d, name, qubits)
}
