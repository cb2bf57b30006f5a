//! The timer values of RFC 3261, and the moments at which timers are due.
//!
//! A moment is a number of milliseconds. Every moment is a `u64`: one that would lie past the greatest `u64` is the
//! greatest `u64`.
#![tactic(auto)]

ghost use Rattle.std.specs.Prelude.{◌≡◌};
ghost use Rattle.txn_moments.specs.Moments.{moment_after, doubled, doubled_up_to_t2};

/// T1, the estimate of the round-trip time: 500 ms (RFC 3261, section 17.1.1.1).
pub const T1: u64 = 500;

/// T2, the longest interval between two sends of one message of a transaction, INVITE requests aside: 4 s (RFC 3261,
/// section 17.1.2.1).
pub const T2: u64 = 4_000;

/// T4, how long a message may stay in the network: 5 s (RFC 3261, section 17.1.2.1).
pub const T4: u64 = 5_000;

/// The moment `wait` milliseconds after `now`.
pub fn after(now: u64, wait: u64) -> u64
    ensures { result ≡ moment_after now wait }
{
    now.saturating_add(wait)
}

/// Twice `interval`, in milliseconds: the next interval of timer A.
pub fn twice(interval: u64) -> u64
    ensures { result ≡ doubled interval }
{
    interval.saturating_mul(2)
}

/// Twice `interval`, in milliseconds, but never more than T2: the next interval of timers E and G.
pub fn twice_up_to_t2(interval: u64) -> u64
    ensures { result ≡ doubled_up_to_t2 interval }
{
    twice(interval).min(T2)
}

#[cfg(test)]
mod tests;
