//! How long a transaction waits for a final response.
ghost use Rattle.std.specs.Prelude.{◌≡◌};
ghost use Rattle.pv_values.specs.Numbers.{number_in};
ghost use Rattle.host_meaning.specs.Run.{ComesTo};
ghost use Rattle.host_meaning.specs.Transactions.{up_to, or_kept, longest_timer, timers_set};

use pv_table::Facts;
use pv_values::text_number;

/// The longest that a final timer can be set to, in milliseconds: an hour.
const LONGEST_TIMER: i64 = 3_600_000;

/// The milliseconds that a text says, from 0 to an hour.
fn timer_in(text: &[u8]) -> Option<u64>
    ensures { result ≡ up_to longest_timer (number_in text.now) }
{
    match text_number(text) {
        Some(n) if 0 <= n && n <= LONGEST_TIMER => Some(n as u64),
        _ => None,
    }
}

/// 0 keeps a timer.
fn or_kept(set: u64, kept: u64) -> u64
    ensures { result ≡ or_kept set kept }
{
    if set == 0 { kept } else { set }
}

/// Sets how long the transaction waits for a final response, in milliseconds: after a provisional response to an INVITE, and in
/// every other case. 1; -1, with nothing changed, where one of the texts is no number from 0 to 3,600,000. 0 keeps.
pub fn t_set_fr(facts: &mut Facts, invite: &[u8], other: &[u8]) -> i64
    ensures { ComesTo (timers_set (up_to longest_timer (number_in invite.now)) (up_to longest_timer (number_in other.now))) facts.old result facts.new }
{
    let (Some(invite), Some(other)) = (timer_in(invite), timer_in(other)) else {
        return -1;
    };
    facts.final_timers.invite = or_kept(invite, facts.final_timers.invite);
    facts.final_timers.other = or_kept(other, facts.final_timers.other);
    1
}
