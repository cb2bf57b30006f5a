//! The branches of this proxy's own Via values, and their texts (RFC 3261, section 8.1.1.7).

ghost use Rattle.std.specs.Prelude.{◌≡◌, ◌↔◌, IsTrue, ◌+◌, ◌^◌, ◌<◌, ◌≤◌, ◌++◌, List, ℕ, drop, length, Some, IfSome, IfNone};
ghost use Rattle.std.specs.Fmt.{decimal};
ghost use Rattle.sip_keys.specs.Branches.{branch_text, front_text, numbers_text, IsBranch};
ghost use Rattle.sip_keys.specs.declared.branch.Branch.{Branch};

use itoa::Buffer;
use numerals::number;
use sip_words::{put, split_once};

/// The room that the text of a branch is given, in bytes.
const ROOM: usize = 64;

/// The highest number of a branch of one transaction.
const LAST: u64 = 11;

/// A branch of a transaction.
#[derive(Clone, Copy, Debug, PartialEq, Eq)]
pub struct Branch {
    /// The slot of the transaction.
    pub slot: u32,
    /// How often that slot was used before.
    pub generation: u64,
    /// The number of the branch in its transaction, 0 to 11.
    pub b: u8,
}

/// What stands before the first dot: the cookie of RFC 3261, section 8.1.1.7, two letters of this proxy, and the epoch in
/// eight hexadecimal digits.
fn front_of(epoch: u32) -> [u8; 17]
    ensures { result ≡ front_text epoch }
{
    let mut front = *b"z9hG4bKrs00000000";
    hex::encode_to_slice(epoch.to_be_bytes(), &mut front[9..]).unwrap();
    front
}

/// Writes the text of a branch to the front of the room, and tells its length, at most 52 bytes.
pub fn branch_text(epoch: u32, br: Branch, out: &mut [u8]) -> usize
    requires room { 64 ≤ length out.old }
    requires number { br.b ≤ 11 }
    ensures len { result ≡ length (branch_text epoch br) }
    ensures written { out.new ≡ branch_text epoch br ++ drop result out.old }
{
    let mut end = put(out, 0, &front_of(epoch));
    end = put(out, end, b".");
    end = put(out, end, Buffer::new().format(br.slot).as_bytes());
    end = put(out, end, b".");
    end = put(out, end, Buffer::new().format(br.generation).as_bytes());
    end = put(out, end, b".");
    put(out, end, Buffer::new().format(br.b).as_bytes())
}

/// The number of a slot.
#[tactic(auto, using(numerals::proofs::Digits::same_number))]
fn slot_of(word: &[u8]) -> Option<u32>
    ensures found { IfSome result (λ n. (n < 2 ^ 32) × (word.now ≡ decimal n)) }
    ensures none { IfNone result ((n : ℕ) → n < 2 ^ 32 → word.now ≡ decimal n → ⊥) }
{
    match number(word) {
        Some(n) if n < 0x1_0000_0000 => Some(n as u32),
        _ => None,
    }
}

/// The number of a branch in its transaction.
#[tactic(auto, using(numerals::proofs::Digits::same_number))]
fn branch_number(word: &[u8]) -> Option<u8>
    ensures found { IfSome result (λ n. (n ≤ 11) × (word.now ≡ decimal n)) }
    ensures none { IfNone result ((n : ℕ) → n ≤ 11 → word.now ≡ decimal n → ⊥) }
{
    match number(word) {
        Some(n) if n <= LAST => Some(n as u8),
        _ => None,
    }
}

/// The branch whose numbers these are, with dots between them.
fn numbers_of(text: &[u8]) -> Option<Branch>
    ensures found { IfSome result (λ br. IsBranch br × (text.now ≡ numbers_text br)) }
    ensures none { IfNone result ((br : Branch) → IsBranch br → text.now ≡ numbers_text br → ⊥) }
{
    let (slot, rest) = split_once(text, b'.')?;
    let (generation, b) = split_once(rest, b'.')?;
    Some(Branch {
        slot: slot_of(slot)?,
        generation: number(generation)?,
        b: branch_number(b)?,
    })
}

/// Whether these are the bytes before the first dot.
fn is_front(front: &[u8], epoch: u32) -> bool
    ensures { IsTrue result ↔ (front.now ≡ front_text epoch) }
{
    front == front_of(epoch).as_slice()
}

/// The branch of this epoch whose text it is.
fn named_branch(epoch: u32, text: &[u8]) -> Option<Branch>
    ensures found { IfSome result (λ br. IsBranch br × (text.now ≡ branch_text epoch br)) }
    ensures none { IfNone result ((br : Branch) → IsBranch br → text.now ≡ branch_text epoch br → ⊥) }
{
    let (front, numbers) = split_once(text, b'.')?;
    if !is_front(front, epoch) {
        return None;
    }
    numbers_of(numbers)
}

/// The branch of this epoch that the text names. None exactly where it is the text of none: with another epoch, a leading
/// zero, a number past its bounds, or anything else.
pub fn branch_of(epoch: u32, text: &[u8]) -> Option<Branch>
    // The text is the branch's.
    ensures found { IfSome result (λ br. IsBranch br × (text.now ≡ branch_text epoch br)) }
    // A branch whose text it is is found, and nothing else can be.
    ensures only { (br : Branch) → IsBranch br → text.now ≡ branch_text epoch br → result ≡ Some br }
{
    named_branch(epoch, text)
}
