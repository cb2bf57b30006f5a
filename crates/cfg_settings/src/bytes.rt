//! Where a byte stands in a text.

ghost use Rattle.std.specs.Prelude.{◌≡◌, ◌+◌, ◌<◌, ◌≤◌, length, take, drop, IsTrue};
ghost use Rattle.cfg_tree.specs.Variables.{before, begins_with};

/// Whether the byte stands at `at`.
#[tactic(auto, using(crate::proofs::Standing::stands_in, crate::proofs::Standing::stands_past))]
pub fn stands_at(text: &[u8], at: usize, byte: u8) -> bool
    ensures value { result ≡ begins_with byte (drop at text.now) }
    ensures within { IsTrue result → at < length text.now }
{
    at < text.len() && text[at] == byte
}

/// How many bytes stand before the first one of this value.
#[tactic(auto, using(crate::proofs::Standing::goes_on, crate::proofs::Standing::stops, crate::proofs::Standing::ends))]
pub fn before(text: &[u8], byte: u8) -> usize
    ensures value { result ≡ before byte text.now }
    ensures within { result ≤ length text.now }
{
    for at in 0..text.len() {
        if text[at] == byte {
            return at;
        }
    }
    text.len()
}

/// The text before the first byte of this value, and after it.
#[tactic(auto, using(std::proofs::lemmas::List::drop_all))]
pub fn cut_at(text: &[u8], byte: u8) -> (&[u8], &[u8])
    ensures front { result.0.now ≡ take (before byte text.now) text.now }
    ensures back { result.1.now ≡ drop (before byte text.now + 1) text.now }
{
    let at = before(text, byte);
    if at < text.len() {
        (&text[..at], &text[at + 1..])
    } else {
        (text, &[])
    }
}
