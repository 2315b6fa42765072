// A result as words at the front of a lent slice. (The words go to places in it: no heap, and the C interface says
// which word stands where.)
ghost use Rattle.std.specs.Prelude.{◌≡◌, ◌∷◌, [], ◌+◌, ◌≤◌, length};
ghost use Rattle.text.specs.Print.{written, WriteEnsures};
ghost use Rattle.jorehyi.specs.Words.{register_words, registers_words, session_words, verdict_words};
ghost use Rattle.jorehyi.specs.Words.{register_size, registers_size, session_size, verdict_size};

use diagram::node::Edge;
use diagram::registers::{Register, Registers};
use text::progress::SessionResult;
use text::ruling::VerdictResult;

// How many words a session's result has: four, and three for each of sixteen registers.
pub const SESSION_SIZE: usize = 52;

// How many words a verdict's result has.
pub const VERDICT_SIZE: usize = 2;

// Puts a word at a place, and answers the place after it.
fn put_word(out: &mut [u64], at: usize, v: u64) -> usize
    requires { at + 1 ≤ length out.old }
    ensures { WriteEnsures out.old at (v ∷ []) out.new result }
{
    out[at] = v;
    at + 1
}

// The same for a count or a place. (`usize` has no From to `u64`.)
fn put_number(out: &mut [u64], at: usize, n: usize) -> usize
    requires { at + 1 ≤ length out.old }
    ensures { WriteEnsures out.old at (n ∷ []) out.new result }
{
    put_word(out, at, n as u64)
}

// 1 and the edge's weight and node; three times 0 for an empty register.
fn put_register(out: &mut [u64], at: usize, r: Register) -> usize
    requires { at + register_size ≤ length out.old }
    ensures { WriteEnsures out.old at (register_words r) out.new result }
{
    let edge = r.unwrap_or(Edge::ZERO);
    let a = put_word(out, at, u64::from(r.is_some()));
    let b = put_word(out, a, edge.weight);
    put_number(out, b, edge.node)
}

fn put_registers(out: &mut [u64], at: usize, rs: Registers) -> usize
    requires { at + registers_size ≤ length out.old }
    ensures { WriteEnsures out.old at (registers_words 16 rs.all) out.new result }
{
    let mut e = at;
    for r in rs.all {
        e = put_register(out, e, r);
    }
    e
}

// Code, lines, bytes, node count, then each register's words.
pub fn put_session(out: &mut [u64], s: SessionResult)
    requires { session_size ≤ length out.old }
    ensures { out.new ≡ written out.old 0 (session_words s) }
{
    let a = put_number(out, 0, s.code);
    let b = put_number(out, a, s.lines);
    let c = put_number(out, b, s.bytes);
    let d = put_number(out, c, s.count);
    let _e = put_registers(out, d, s.registers);
}

// Code and bytes.
pub fn put_verdict(out: &mut [u64], v: VerdictResult)
    requires { verdict_size ≤ length out.old }
    ensures { out.new ≡ written out.old 0 (verdict_words v) }
{
    let a = put_number(out, 0, v.code);
    let _e = put_number(out, a, v.bytes);
}
