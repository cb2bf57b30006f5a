//! What holds of every history of a slot's claims. Each function states a law, and does nothing when it is called.
ghost use Rattle.std.specs.Prelude.{◌≡◌, ◌≤◌, ℕ, List, Some};
ghost use Rattle.histories.specs.Records.{records};
ghost use Rattle.claim_words.specs.declared.By.{By};
ghost use Rattle.claim_words.specs.Suspensions.{ClaimEntry, IsClaimHistory, suspension, suspensions, wins};

/// Each suspension is won at most once, and it has ended exactly where it was won.
pub fn won_once()
    ensures once { (h : List ClaimEntry) (serial : ℕ) → IsClaimHistory h → wins serial (records h) ≤ 1 }
    ensures ended { (h : List ClaimEntry) (serial : ℕ) (by : By) → IsClaimHistory h → suspension (suspensions h) serial ≡ Some by → wins serial (records h) ≡ 1 }
{}
