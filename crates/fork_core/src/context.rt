//! The response context (RFC 3261, section 16.7): a mark for each branch, and what is chosen by them.

ghost use Rattle.std.specs.Prelude.{◌≡◌, ◌≢◌, ◌<◌, ◌≤◌, ◌↔◌, ◌⊎◌, ℕ, Bool, IsTrue, Some, None, IfSome, IfNone, MatchOption, length, drop};
ghost use Rattle.std.specs.List.{list_all};
ghost use Rattle.fork_core.specs.Responses.{BranchResponse, History, IsKeptNow, at_first, with_branch, next_round, with_response};
ghost use Rattle.fork_core.specs.Choices.{GoesOnNow, IsToKeep, IsBest, HasFailed, AreAllNumbers, IsToCancel, Joins};
ghost use Rattle.fork_core.specs.Decisions.{best_of, challenges, forwarding_of, has_failed, to_cancel};
ghost use Rattle.fork_core.specs.Preference.{IsBetterCode};
ghost use Rattle.fork_core.specs.Histories.{HasHistory, IsChallengeMark, branch_count, is_kept_mark, branch_mark, mark_after};

use crate::preference::goes_before;
use arrayvec::ArrayVec;

/// The greatest number of branches of a request, those of all rounds.
const BRANCHES: usize = 12;

/// What becomes of a response.
#[derive(Clone, Copy, Debug, PartialEq, Eq)]
pub enum Forwarding {
    /// It is forwarded at once.
    Now,
    /// It is kept, until the best response of the round is chosen.
    Kept,
    /// It goes no further.
    Nothing,
}

/// The first final response of a branch.
#[derive(Clone, Copy, Default)]
pub(crate) enum BranchMark {
    /// There was none.
    #[default]
    Open,
    /// It was a 2xx.
    Succeeded,
    /// It was one of 300 to 699, with this status code.
    Kept(u16),
}

/// The branches of a request and their final responses, with three kinds of methods, called in this order.
///
/// - [`Context::new`] begins. A round begins by [`Context::new_round`], the first one without it, and [`Context::add`] adds each
///   branch of it.
/// - [`Context::on_reply`] takes each response that a branch passes up, and each final response that is counted for a branch
///   without one, and says whether it is forwarded at once.
/// - The others only read. Once the round [`Context::has_failed`], [`Context::best`] is the response to send, together with what
///   [`Context::challenges`] joins to it; [`Context::to_cancel`] tells at each moment which branches a 2xx, a 6xx or a CANCEL
///   cancels.
#[derive(Drop)]
pub struct Context {
    /// Whether the request is an INVITE.
    invite: bool,
    /// The number of the first branch of this round.
    first: usize,
    /// The first final response of each branch, in order of number.
    marks: ArrayVec<BranchMark, BRANCHES>,
}

impl Context {
    /// The context of a request that has no branch yet.
    pub fn new(invite: bool) -> Context
        ensures { HasHistory result (at_first invite) }
    {
        Context {
            invite,
            first: 0,
            marks: ArrayVec::new(),
        }
    }

    /// Adds a branch to this round, and returns its number, from 0; `None` exactly where there are twelve.
    pub fn add(&mut self) -> Option<u8>
        ensures { (h : History) → HasHistory self.old h →
            MatchOption result ((length h.branches ≡ 12) × HasHistory self.new h)
            (λ b. (length h.branches < 12) × (b ≡ length h.branches) × HasHistory self.new (with_branch h)) }
    {
        let number = self.marks.len();
        if number == BRANCHES {
            return None;
        }
        self.marks.push(BranchMark::Open);
        Some(number as u8)
    }

    /// How many branches there are, those of all rounds.
    pub fn branches(&self) -> usize
        ensures { result ≡ branch_count self.now }
    {
        self.marks.len()
    }

    /// Begins the next round: the branches so far take no part in it.
    pub fn new_round(&mut self)
        ensures { (h : History) → HasHistory self.old h → HasHistory self.new (next_round h) }
    {
        self.first = self.marks.len();
    }

    /// Takes a response with the status code `code` on the branch `b`, and says what becomes of it; `answered` says whether the
    /// server has sent a final response.
    pub fn on_reply(&mut self, b: u8, code: u16, answered: bool) -> Forwarding
        requires { b < branch_count self.old }
        ensures lists { (h : History) → HasHistory self.old h → HasHistory self.new (with_response h b code answered) }
        ensures now { (h : History) → HasHistory self.old h → (result ≡ Forwarding.Now) ↔ GoesOnNow h code answered }
        ensures kept { (h : History) → HasHistory self.old h → (result ≡ Forwarding.Kept) ↔ IsToKeep h b code }
        ensures value { (h : History) → HasHistory self.old h → result ≡ forwarding_of h b code answered }
    {
        let forwarding = self.forwarding(b, code, answered);
        self.count(b, code);
        forwarding
    }

    /// What becomes of such a response.
    fn forwarding(&self, b: u8, code: u16, answered: bool) -> Forwarding
        requires { b < branch_count self.now }
        ensures now { (h : History) → HasHistory self.now h → (result ≡ Forwarding.Now) ↔ GoesOnNow h code answered }
        ensures kept { (h : History) → HasHistory self.now h → (result ≡ Forwarding.Kept) ↔ IsToKeep h b code }
    {
        let open = self.is_open(usize::from(b));
        match code {
            101..=199 if !answered => Forwarding::Now,
            200..=299 if self.invite || !answered => Forwarding::Now,
            300..=699 if open => Forwarding::Kept,
            _ => Forwarding::Nothing,
        }
    }

    /// Marks the branch by a response with this status code.
    fn count(&mut self, b: u8, code: u16)
        requires { b < branch_count self.old }
        ensures lists { (h : History) (answered : Bool) → HasHistory self.old h →
            HasHistory self.new (with_response h b code answered) }
        ensures invite { self.new.invite ≡ self.old.invite }
    {
        let number = usize::from(b);
        self.marks[number] = self.mark(number).after(code);
    }

    /// The branch with the best kept response of this round; `None` exactly where no final response of the round is kept.
    pub fn best(&self) -> Option<u8>
        ensures found { (h : History) → HasHistory self.now h →
            IfSome result (λ b. (a : BranchResponse) × (a.branch ≡ b) × IsBest h a) }
        ensures none { (h : History) → HasHistory self.now h → IfNone result ((a : BranchResponse) → ¬ IsKeptNow h a) }
        ensures value { (h : History) → HasHistory self.now h →
            MatchOption result (best_of h ≡ None) (λ b. (a : BranchResponse) × (a.branch ≡ b) × (best_of h ≡ Some a)) }
    {
        let mut best = None;
        for b in self.first..self.marks.len() {
            if let BranchMark::Kept(code) = self.mark(b) {
                best = Some(better(best, b as u8, code));
            }
        }
        match best {
            Some((b, _)) => Some(b),
            None => None,
        }
    }

    /// Whether the round has failed: each of its branches has a final response, and none was a 2xx. Then [`Context::best`] is the
    /// response to send. A round without a branch has failed.
    pub fn has_failed(&self) -> bool
        ensures failed { (h : History) → HasHistory self.now h → IsTrue result ↔ HasFailed h }
        ensures value { (h : History) → HasHistory self.now h → result ≡ has_failed h }
    {
        self.are_all_kept()
    }

    /// Whether a final response of 300 to 699 is kept for each branch of this round.
    fn are_all_kept(&self) -> bool
        ensures { result ≡ list_all is_kept_mark (drop self.now.first self.now.marks.items) }
    {
        self.marks
            .iter()
            .skip(self.first)
            .all(|mark| mark.is_kept())
    }

    /// The branches of an INVITE that have no final response, in order of number; none for another request.
    pub fn to_cancel(&self) -> ArrayVec<u8, BRANCHES>
        ensures all { (h : History) → HasHistory self.now h → AreAllNumbers (IsToCancel h) result.items }
        ensures value { (h : History) → HasHistory self.now h → result.items ≡ to_cancel h }
    {
        let mut branches = ArrayVec::new();
        if self.invite {
            for b in 0..self.marks.len() {
                if self.is_open(b) {
                    branches.push(b as u8);
                }
            }
        }
        branches
    }

    /// The branches whose 401 or 407 joins the chosen one, in order of number: where `chosen` has a kept 401 or 407 of this round,
    /// all others of the round that have one; none where it has not.
    pub fn challenges(&self, chosen: u8) -> ArrayVec<u8, BRANCHES>
        requires { chosen < branch_count self.now }
        ensures all { (h : History) → HasHistory self.now h → AreAllNumbers (Joins h chosen) result.items }
        ensures value { (h : History) → HasHistory self.now h → result.items ≡ challenges h chosen }
    {
        let mut branches = ArrayVec::new();
        if self.is_challenged(usize::from(chosen)) {
            for b in 0..self.marks.len() {
                if self.joins(usize::from(chosen), b) {
                    branches.push(b as u8);
                }
            }
        }
        branches
    }

    /// Whether the branch `b` joins `chosen`, which has a challenge: it is another branch of this round with one.
    fn joins(&self, chosen: usize, b: usize) -> bool
        requires { b < branch_count self.now }
        ensures { IsTrue result ↔ ((b ≢ chosen) × (self.now.first ≤ b) × IsChallengeMark (branch_mark self.now b)) }
    {
        b != chosen && self.is_challenged(b)
    }

    /// Whether this branch has no final response.
    fn is_open(&self, b: usize) -> bool
        requires { b < branch_count self.now }
        ensures { IsTrue result ↔ (branch_mark self.now b ≡ BranchMark.Open) }
    {
        matches!(self.mark(b), BranchMark::Open)
    }

    /// The mark of this branch.
    fn mark(&self, b: usize) -> BranchMark
        requires { b < branch_count self.now }
        ensures { result ≡ branch_mark self.now b }
    {
        self.marks[b]
    }

    /// Whether a 401 or 407 is kept for this branch in this round.
    fn is_challenged(&self, b: usize) -> bool
        requires { b < branch_count self.now }
        ensures { IsTrue result ↔ ((self.now.first ≤ b) × IsChallengeMark (branch_mark self.now b)) }
    {
        self.first <= b && self.mark(b).is_challenge()
    }
}

impl BranchMark {
    /// The mark after a response with this status code: the first final response stays.
    fn after(self, code: u16) -> BranchMark
        ensures { result ≡ mark_after self code }
    {
        match self {
            BranchMark::Open => match code {
                200..=299 => BranchMark::Succeeded,
                300..=699 => BranchMark::Kept(code),
                _ => BranchMark::Open,
            },
            counted => counted,
        }
    }

    /// Whether a final response of 300 to 699 is kept.
    fn is_kept(&self) -> bool
        ensures { result ≡ is_kept_mark self.now }
    {
        matches!(self, BranchMark::Kept(_))
    }

    /// Whether a 401 or 407 is kept.
    fn is_challenge(&self) -> bool
        ensures { IsTrue result ↔ IsChallengeMark self.now }
    {
        matches!(self, BranchMark::Kept(401 | 407))
    }
}

/// The better of the best response so far and a new one, each with its branch, which is higher for the new one.
fn better(best: Option<(u8, u16)>, b: u8, code: u16) -> (u8, u16)
    ensures { MatchOption best (result ≡ (b, code))
        (λ x. (IsBetterCode code x.1 × (result ≡ (b, code))) ⊎ ((¬ IsBetterCode code x.1) × (result ≡ x))) }
{
    match best {
        Some((other, other_code)) => {
            if goes_before(code, other_code) {
                (b, code)
            } else {
                (other, other_code)
            }
        }
        None => (b, code),
    }
}
