// The words of session calls, but `gate`.
ghost use Rattle.std.specs.Prelude.{◌≡◌};
ghost use Rattle.text.specs.Words.{word_of};

#[derive(Clone, Copy)]
pub enum Word {
    Put,
    Unit,
    Add,
    Cont,
    Low,
    Drop,
    Collect,
    At,
    Cmp,
    On,
    Lows,
}

// The word that s is, if it is one. (A `match` on byte strings has a goal for each byte at which s may differ.)
#[tactic(auto, unfolding(crate::specs::Words::word_of))]
pub(crate) fn read(s: &[u8]) -> Option<Word>
    ensures { result ≡ word_of s.now }
{
    if s == b"put".as_slice() {
        Some(Word::Put)
    } else if s == b"unit".as_slice() {
        Some(Word::Unit)
    } else if s == b"add".as_slice() {
        Some(Word::Add)
    } else if s == b"cont".as_slice() {
        Some(Word::Cont)
    } else if s == b"low".as_slice() {
        Some(Word::Low)
    } else if s == b"drop".as_slice() {
        Some(Word::Drop)
    } else if s == b"collect".as_slice() {
        Some(Word::Collect)
    } else if s == b"at".as_slice() {
        Some(Word::At)
    } else if s == b"cmp".as_slice() {
        Some(Word::Cmp)
    } else if s == b"on".as_slice() {
        Some(Word::On)
    } else if s == b"lows".as_slice() {
        Some(Word::Lows)
    } else {
        None
    }
}
