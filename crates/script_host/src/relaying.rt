//! A request that is relayed: blocks are asked for one by one, and where one of them isn't there those that were taken go back.
ghost use Rattle.std.specs.Prelude.{◌≡◌, false, true, IfOk, OnErr, IfSome, Ok, Some, negsuc, ℕ, suc};
ghost use Rattle.sip_msg.specs.Table.{Reads};
ghost use Rattle.dialogue.specs.Course.{Ends};
ghost use Rattle.pv_table.specs.declared.facts.RunData.{RunData as RunValue};
ghost use Rattle.host_meaning.specs.Run.{Around, received, Tells, code};
ghost use Rattle.host_meaning.specs.Rows.{idle};
ghost use Rattle.host_meaning.specs.Responses.{is_ack};
ghost use Rattle.host_meaning.specs.Transactions.{is_cancel};
ghost use Rattle.host_meaning.specs.Relaying.{t_relay, gives, takes_blocks};
ghost use Rattle.script_host.specs.Asking.{as_heard};
ghost use Rattle.script_host.specs.Lending.{around_of, received_of, IsRead, state_of};
ghost use Rattle.script_host.specs.Rows.{left_of, relayed_over, without, with_blocks, state_under, HasTaken, HasRoom, IsGoing, IsShort, AsksBelow, most_asks, rank};

use crate::answers::hear;
use crate::ask::{Answer, Ask};
use crate::lent::{Lent, MessageView};
use crate::row::{Going, Wait, Waiting};
use buf_pool::Block;
use message_functions::{TextRoom, is_ack};
use pv_table::{Facts, RunData};
use pv_values::HostAnswer;
use std::alloc::{AllocError as NoMemory, Global};
use transaction_functions::{Relaying, is_cancel, relay_ack, relay_request, relayed};

/// The most blocks that a run holds.
const MOST_BLOCKS: usize = 24;

/// The row of `t_relay`, but for a CANCEL, of which it returns -9 until its part starts. It is also out of memory where the data have no place for a block that is wanted, which is never so
/// in the run of a transaction. Out of memory the data stay as they were.
pub(crate) fn relay(
    alloc: Global,
    lent: &Lent<'_>,
    message: MessageView<'_>,
    room: &mut TextRoom,
    state: &mut RunData,
) -> Result<Going, NoMemory>
    requires reads { Reads message.bytes.now message.message.now }
    requires lent { received_of lent.now.message ≡ Some (received message.bytes.now message.message.now) }
    ensures row { IfOk result (λ g. is_cancel (received message.entry.bytes.now message.entry.message.now) ≡ false
        → IsGoing (around_of lent.now) (t_relay (around_of lent.now) (received message.entry.bytes.now message.entry.message.now) (state_of state.old)) g state.new) }
    // The row of a CANCEL hasn't started.
    ensures cancel { IfOk result (λ g. is_ack (received message.entry.bytes.now message.entry.message.now) ≡ false
        → is_cancel (received message.entry.bytes.now message.entry.message.now) ≡ true → IsGoing (around_of lent.now) (idle (state_of state.old)) g state.new) }
    ensures below { IfOk result (λ g. AsksBelow most_asks g) }
    ensures err { OnErr result (state_of state.new ≡ state_of state.old) }
{
    let (b, m) = (message.bytes, message.message);
    if is_ack(b, m) {
        let code = relay_ack(alloc, b, m, &mut state.facts, lent.settings, room)?;
        return Ok(Going::code(code));
    }
    if is_cancel(b, m) {
        return Ok(Going::code(-9));
    }
    let called = state.facts.has_called_relay;
    match relay_request(alloc, b, m, &mut state.facts, lent.settings, room)? {
        Relaying::Code(code) => Ok(Going::code(code)),
        Relaying::Wants(blocks) => match first_ask(state, blocks) {
            Some(going) => Ok(going),
            None => {
                state.facts.has_called_relay = called;
                Err(NoMemory)
            }
        },
    }
}

/// Goes on from the answer to the last ask of a row.
pub(crate) fn resume(
    alloc: Global,
    lent: &Lent<'_>,
    state: &mut RunData,
    wait: Waiting,
    answer: Answer,
) -> Result<Going, NoMemory>
    requires reads { IsRead lent.now }
    ensures goes { IfOk result (λ g. HasRoom wait state.old → IsGoing (around_of lent.now) (left_of (around_of lent.now) wait (state_under wait state.old) (as_heard answer)) g state.new) }
    ensures short { OnErr result (HasRoom wait state.old → IsShort (left_of (around_of lent.now) wait (state_under wait state.old) (as_heard answer)) (state_of state.new)) }
    ensures below { IfOk result (λ g. AsksBelow (rank wait) g) }
    ensures start { wait ≡ Waiting.Row Wait.Start → (result ≡ Ok (Going.Tells HostAnswer.Start)) × (state.new ≡ state.old) }
{
    match wait {
        Waiting::Row(wait) => hear_row(wait, answer),
        Waiting::Block { more, taken } => hear_block(alloc, lent, state, more, taken, answer),
        Waiting::GivenBack { left } => give_back(state, left),
    }
}

/// Goes on from the answer to the only ask of a row.
fn hear_row(wait: Wait, answer: Answer) -> Result<Going, NoMemory>
    ensures goes { IfOk result (λ g. (a : Around) (d : RunValue) → IsGoing a (left_of a (Waiting.Row wait) (state_of d) (as_heard answer)) g d) }
    ensures short { OnErr result ((a : Around) (d : RunValue) → IsShort (left_of a (Waiting.Row wait) (state_of d) (as_heard answer)) (state_of d)) }
    ensures below { IfOk result (λ g. AsksBelow 0 g) }
    ensures start { (d : RunValue) → wait ≡ Wait.Start → result ≡ Ok (Going.Tells HostAnswer.Start) }
{
    match hear(wait, answer) {
        Ok(told) => Ok(Going::Tells(told)),
        Err(_) => Err(NoMemory),
    }
}

/// Goes on from the answer to an ask for a block.
fn hear_block(
    alloc: Global,
    lent: &Lent<'_>,
    state: &mut RunData,
    more: u8,
    taken: u8,
    answer: Answer,
) -> Result<Going, NoMemory>
    requires reads { IsRead lent.now }
    ensures goes { IfOk result (λ g. HasRoom (Waiting.Block more taken) state.old
        → IsGoing (around_of lent.now) (left_of (around_of lent.now) (Waiting.Block more taken) (without taken state.old) (as_heard answer)) g state.new) }
    ensures short { OnErr result (HasRoom (Waiting.Block more taken) state.old
        → IsShort (left_of (around_of lent.now) (Waiting.Block more taken) (without taken state.old) (as_heard answer)) (state_of state.new)) }
    ensures below { IfOk result (λ g. AsksBelow (rank (Waiting.Block more taken)) g) }
{
    match answer {
        Answer::Block(block) => match block {
            Some(block) => take_block(alloc, lent, state, more, taken, block),
            None => give_back(state, taken),
        },
        _ => Err(NoMemory),
    }
}

/// Gives the last of so many blocks back. Where none is left the code is -2.
fn give_back(state: &mut RunData, blocks: u8) -> Result<Going, NoMemory>
    ensures goes { IfOk result (λ g. HasTaken blocks state.old → (a : Around) → IsGoing a (gives blocks (code (negsuc 1) (without blocks state.old))) g state.new) }
    ensures there { OnErr result (HasTaken blocks state.old → ⊥) }
    ensures below { IfOk result (λ g. AsksBelow blocks g) }
{
    if blocks == 0 {
        return Ok(Going::code(-2));
    }
    match state.blocks.pop() {
        Some(Some(block)) => {
            let left = blocks - 1;
            Ok(Going::Asks(Ask::GiveBack(block), Waiting::GivenBack { left }))
        }
        Some(None) | None => Err(NoMemory),
    }
}

/// Puts a block that was wanted into its place, and asks for the next one; with the last one the request is relayed. So it is
/// where the place is there.
fn take_block(
    alloc: Global,
    lent: &Lent<'_>,
    state: &mut RunData,
    more: u8,
    taken: u8,
    block: Block,
) -> Result<Going, NoMemory>
    requires reads { IsRead lent.now }
    ensures goes { IfOk result (λ g. HasRoom (Waiting.Block more taken) state.old → IsGoing (around_of lent.now) (takes_blocks more (suc taken) (without taken state.old) (relayed_over (received_of lent.now.message))) g state.new) }
    ensures short { OnErr result (HasRoom (Waiting.Block more taken) state.old → IsShort (takes_blocks more (suc taken) (without taken state.old) (relayed_over (received_of lent.now.message))) (state_of state.new)) }
    ensures below { IfOk result (λ g. AsksBelow (rank (Waiting.Block more taken)) g) }
{
    if taken == u8::MAX {
        return Err(NoMemory);
    }
    if state.blocks.try_push(Some(block)).is_err() {
        return Err(NoMemory);
    }
    if more == 0 {
        return match relay_on(alloc, lent, &mut state.facts) {
            Ok(told) => Ok(Going::Tells(told)),
            Err(_) => Err(NoMemory),
        };
    }
    let (more, taken) = (more - 1, taken + 1);
    Ok(Going::Asks(Ask::Block, Waiting::Block { more, taken }))
}

/// Relays the request, for which the blocks are there. Out of memory the facts stay as they were, and so they do where there
/// is no message.
fn relay_on(alloc: Global, lent: &Lent<'_>, facts: &mut Facts) -> Result<HostAnswer, NoMemory>
    requires reads { IsRead lent.now }
    ensures ok { IfOk result (λ told. (blocks : ℕ) → relayed_over (received_of lent.now.message) (with_blocks facts.old blocks) ≡ Ends (Tells told (with_blocks facts.new blocks))) }
    ensures err { OnErr result (facts.new ≡ facts.old) }
{
    let Some(message) = lent.message else {
        return Err(NoMemory);
    };
    relayed(alloc, message.bytes, message.message, facts)?;
    Ok(HostAnswer::Code(1))
}

/// The first ask for so many blocks. None where the data have no places for them.
fn first_ask(state: &RunData, blocks: u8) -> Option<Going>
    ensures row { IfSome result (λ g. (a : Around) → IsGoing a (takes_blocks blocks 0 (state_of state.now) (relayed_over a.received)) g state.now) }
    ensures below { IfSome result (λ g. AsksBelow most_asks g) }
{
    let wanted = usize::from(blocks);
    if wanted == 0 || MOST_BLOCKS < wanted || MOST_BLOCKS - wanted < state.blocks.len() {
        return None;
    }
    Some(Going::Asks(
        Ask::Block,
        Waiting::Block {
            more: blocks - 1,
            taken: 0,
        },
    ))
}
