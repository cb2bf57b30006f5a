//! The function that sends a request on to its targets (RFC 3261, sections 16.6 and 16.11).
ghost use Rattle.std.specs.Prelude.{◌≡◌, ◌≤◌, ◌<◌, ◌+◌, false, true, ℕ, IfOk, OnErr, IfSome, MatchOption, length};
ghost use Rattle.sip_msg.specs.Table.{Reads};
ghost use Rattle.pv_table.specs.declared.facts.Facts.{Facts as RunFacts};
ghost use Rattle.host_meaning.specs.Run.{Around, received, ComesTo, is_readable};
ghost use Rattle.host_meaning.specs.Transactions.{with_transaction, with_trying};
ghost use Rattle.host_meaning.specs.Relaying.{relay_of, targets_of, has_no_hop, relay_called, relayed, fits_first, blocks_wanted, makes_too_many, has_destination, loose_ack, relay_ack};
ghost use Rattle.transaction_functions.specs.Relaying.{IsRelaying, IsRelayed};

use crate::destinations::target_address;
use crate::methods::is_invite;
use crate::responses::{answer, respond};
use host_meaning::Settings;
use message_functions::{TextRoom, is_undecided};
use pv_table::{Facts, Outcome, Relay, Response, edits_copy, targets_copy, text_copy};
use pv_values::Text;
use sip_keys::{Branch, branch_text};
use sip_msg::Message;
use sqlite_items::Items;
use std::alloc::{AllocError as NoMemory, Global};

/// The most branches of a transaction.
const MOST_BRANCHES: u8 = 12;

/// What a request without Max-Forwards is sent with (RFC 3261, section 16.6, step 3).
const HOPS: u8 = 70;

/// What a call of `t_relay` for a request comes to.
#[derive(Clone, Copy, Debug, PartialEq, Eq)]
pub enum Relaying {
    /// This code, at once.
    Code(i64),
    /// So many blocks are wanted of the pool, and then the request is [`relayed`]. Where one of them isn't there, those that
    /// were taken go back and the code is -2.
    Wants(u8),
}

/// What is sent on, as it stands.
fn relay_of(alloc: Global, facts: &Facts) -> Result<Relay, NoMemory>
    ensures { IfOk result (λ relay. relay ≡ relay_of facts.now) }
{
    Ok(Relay {
        edits: edits_copy(alloc, &facts.edits)?,
        uri: facts.uri.copy(alloc)?,
        destination: text_copy(alloc, &facts.destination)?,
        targets: targets_copy(alloc, facts.targets.as_slice())?,
        absent_hops: facts.absent_hops,
    })
}

/// Whether Max-Forwards is 0.
fn has_no_hop(m: &Message) -> bool
    ensures { result ≡ has_no_hop m.now.max_forwards }
{
    match m.max_forwards {
        Some(hops) => hops == 0,
        None => false,
    }
}

/// How many branches there will be with one for each target: at most twelve.
fn branches_with_targets(facts: &Facts) -> Option<u8>
    ensures { MatchOption result (makes_too_many facts.now ≡ true) (λ n. (makes_too_many facts.now ≡ false) × (n ≡ facts.now.branches + length (targets_of (relay_of facts.now))) × (n ≤ 12)) }
{
    let appended = facts.targets.len();
    if usize::from(MOST_BRANCHES) <= appended || MOST_BRANCHES <= facts.branches {
        return None;
    }
    let all = facts.branches + 1 + appended as u8;
    if MOST_BRANCHES < all { None } else { Some(all) }
}

/// Whether `$du`, else `$ru`, says where the request is sent.
fn has_destination(facts: &Facts, settings: &Settings) -> bool
    ensures { (a : Around) → a.settings ≡ settings.now → result ≡ has_destination a facts.now }
{
    target_address(settings, facts.uri.bytes(), &facts.destination).is_some()
}

/// Whether the request to the first target reads, with the number behind those of the branches that there are.
fn fits_first(
    b: &[u8],
    m: &Message,
    facts: &Facts,
    settings: &Settings,
    room: &mut TextRoom,
) -> bool
    requires reading { Reads b.now m.now }
    requires hops { IfSome m.now.max_forwards (λ hops. 0 < hops) }
    requires few { facts.now.branches < 12 }
    ensures { (a : Around) → a.settings ≡ settings.now → result ≡ fits_first a (received b.now m.now) facts.now }
{
    let branch = Branch {
        slot: facts.slot,
        generation: facts.generation,
        b: facts.branches.saturating_sub(facts.removed),
    };
    let mut text = [0; 64];
    let len = branch_text(settings.epoch, branch, &mut text);
    room.request_reads(
        b,
        m,
        facts.source,
        facts.edits.as_slice(),
        facts.uri.bytes(),
        settings.listen,
        &text[..len],
        facts.absent_hops.unwrap_or(HOPS),
    )
}

/// Begins `t_relay` for a request that is neither an ACK nor a CANCEL. The codes, of which the first counts: -5 with an
/// outcome, and in a transaction that is answered or suspended; -4 in one that is cancelled; -5 where Max-Forwards is 0, and 483
/// is then answered; -1 where `$du`, else `$ru`, has no destination, or where there would be more than twelve branches; -3 where the
/// request to the first target would be too long or would not read. Else two blocks are wanted for each target. Out of memory
/// the facts stay as they were.
pub fn relay_request(
    alloc: Global,
    b: &[u8],
    m: &Message,
    facts: &mut Facts,
    settings: &Settings,
    room: &mut TextRoom,
) -> Result<Relaying, NoMemory>
    requires { Reads b.now m.now }
    ensures ok { IfOk result (λ w. (a : Around) → a.settings ≡ settings.now → IsRelaying a (received b.now m.now) facts.old w facts.new) }
    ensures err { OnErr result (facts.new ≡ facts.old) }
{
    if !is_undecided(&facts.outcome) || facts.standing.is_answered || facts.standing.is_suspended {
        facts.has_called_relay = true;
        return Ok(Relaying::Code(-5));
    }
    if facts.standing.is_cancelled {
        facts.has_called_relay = true;
        return Ok(Relaying::Code(-4));
    }
    if has_no_hop(m) {
        let reason = Text::from_slice(alloc, b"Too Many Hops")?;
        facts.has_called_relay = true;
        answer(facts, Response { code: 483, reason });
        return Ok(Relaying::Code(-5));
    }
    let branches = branches_with_targets(facts);
    if !has_destination(facts, settings) || branches.is_none() {
        facts.has_called_relay = true;
        return Ok(Relaying::Code(-1));
    }
    if !fits_first(b, m, facts, settings, room) {
        facts.has_called_relay = true;
        return Ok(Relaying::Code(-3));
    }
    facts.has_called_relay = true;
    Ok(Relaying::Wants(2 + 2 * facts.targets.len() as u8))
}

/// There is a transaction, and where the message is an INVITE and nothing was decided to be sent for it, 100 is the first (RFC 3261,
/// section 8.2.6.1). Out of memory the facts stay as they were.
fn begin_transaction(
    alloc: Global,
    b: &[u8],
    m: &Message,
    facts: &mut Facts,
) -> Result<(), NoMemory>
    requires { Reads b.now m.now }
    ensures ok { IfOk result (λ _. facts.new ≡ with_trying (received b.now m.now) (with_transaction facts.old)) }
    ensures err { OnErr result (facts.new ≡ facts.old) }
{
    if is_invite(b, m) && !facts.standing.has_responded {
        let reason = Text::from_slice(alloc, b"Trying")?;
        return respond(facts, Response { code: 100, reason });
    }
    facts.standing.exists = true;
    Ok(())
}

/// Sends the request on to its targets, for which the blocks were taken: 1 is its code. Where it is an INVITE and nothing was
/// decided to be sent for it, 100 is. Out of memory the facts stay as they were. That is also said where there would be more
/// than twelve branches, which [`relay_request`] refuses.
pub fn relayed(alloc: Global, b: &[u8], m: &Message, facts: &mut Facts) -> Result<(), NoMemory>
    requires { Reads b.now m.now }
    ensures ok { IfOk result (λ _. IsRelayed (received b.now m.now) facts.old facts.new) }
    ensures err { OnErr result (facts.new ≡ facts.old) }
{
    let Some(branches) = branches_with_targets(facts) else {
        return Err(NoMemory);
    };
    let relay = relay_of(alloc, facts)?;
    begin_transaction(alloc, b, m, facts)?;
    facts.targets = Items::new(alloc);
    facts.branches = branches;
    facts.outcome = Outcome::Relayed(relay);
    Ok(())
}

/// Whether the ACK reads, as it goes on.
fn ack_fits(b: &[u8], m: &Message, facts: &Facts, settings: &Settings, room: &mut TextRoom) -> bool
    requires reading { Reads b.now m.now }
    requires hops { IfSome m.now.max_forwards (λ hops. 0 < hops) }
    ensures { (a : Around) → a.settings ≡ settings.now → result ≡ is_readable (loose_ack a (received b.now m.now) facts.now.source (relay_of facts.now)) }
{
    room.ack_reads(
        b,
        m,
        facts.source,
        facts.edits.as_slice(),
        facts.uri.bytes(),
        settings.listen,
        facts.absent_hops.unwrap_or(HOPS),
    )
}

/// Does `t_relay` for an ACK, which goes on without a transaction to `$ru` with `$du` alone (RFC 3261, section 16.11). 1; -5 with
/// an outcome or where Max-Forwards is 0; -1 where `$du`, else `$ru`, has no destination; -3 where the ACK would be too long or
/// would not read. Out of memory the facts stay as they were.
pub fn relay_ack(
    alloc: Global,
    b: &[u8],
    m: &Message,
    facts: &mut Facts,
    settings: &Settings,
    room: &mut TextRoom,
) -> Result<i64, NoMemory>
    requires { Reads b.now m.now }
    ensures ok { IfOk result (λ n. (a : Around) → a.settings ≡ settings.now → ComesTo (λ s. relay_ack a (received b.now m.now) (relay_called s)) facts.old n facts.new) }
    ensures err { OnErr result (facts.new ≡ facts.old) }
{
    if !is_undecided(&facts.outcome) || has_no_hop(m) {
        facts.has_called_relay = true;
        return Ok(-5);
    }
    if !has_destination(facts, settings) {
        facts.has_called_relay = true;
        return Ok(-1);
    }
    if !ack_fits(b, m, facts, settings, room) {
        facts.has_called_relay = true;
        return Ok(-3);
    }
    let relay = relay_of(alloc, facts)?;
    facts.has_called_relay = true;
    facts.outcome = Outcome::Relayed(relay);
    Ok(1)
}
