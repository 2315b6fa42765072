// What the numbers of a line are, and how large document 01 lets them be. (A line's numbers are `usize`, diagram's
// weights and masks `u64`: there is no From between the two, so `as` stands where one becomes the other.)
use diagram::gate::QubitCount;
use diagram::node::Index;
use diagram::registers::RegisterNumber;

pub type Weight = usize;

pub type Mask = usize;

pub type Assignment = usize;

pub type LineNumber = usize;

// "2 register above 15"
pub const LAST_REGISTER: RegisterNumber = 15;

// "constant w, 0 to 65536"
pub const LAST_WEIGHT: Weight = 65536;

// "n 1 to 8"
pub const MOST_QUBITS: QubitCount = 8;

// "bits of m, at most 16777215", "assignment v, at most 16777215"
pub const LAST_MASK: Mask = 16777215;

// "k 1 to 23"
pub const LAST_INDEX: Index = 23;

// "Numbers have 1 to 8 digits"
pub const MOST_DIGITS: usize = 8;

// "if fewer than 16 output bytes remain, the run stops with 9"
pub const ANSWER_ROOM: usize = 16;

// "Fewer than 32 output bytes returns 9"
pub const VERDICT_ROOM: usize = 32;

// What holds every line as `squeeze` leaves it.
pub const LINE_ROOM: usize = 64;
