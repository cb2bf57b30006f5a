//! A request: the run of `request_route` over it, and what that decided.
ghost use Rattle.std.specs.Prelude.{◌≡◌, IfOk, OnOk, Some, ◌++◌, if◌then◌else◌};
ghost use Rattle.cfg_tree.specs.declared.script.Script.{Script};
ghost use Rattle.cfg_code.specs.Follows.{Stands};
ghost use Rattle.sip_msg.specs.Table.{Reads};
ghost use Rattle.sip_build.specs.Addresses.{reply_address};
ghost use Rattle.host_meaning.specs.Run.{around, received};
ghost use Rattle.txn_dialogue.specs.Slots.{request_uri};
ghost use Rattle.txn_dialogue.specs.Runs.{beginning};
ghost use Rattle.txn_dialogue.specs.LooseRuns.{loose_response};
ghost use Rattle.txn_dialogue.specs.Rounds.{is_drop};
ghost use Rattle.script_host.specs.Lending.{around_of, IsRead, state_of};
ghost use Rattle.sim_text.specs.Trace.{items_text};
ghost use Rattle.solo_run.specs.Running.{HasNoTransaction, RunsTo, facts_at_first, shown_decision, shown_response};

use crate::objects::Objects;
use crate::rooms::Outgoing;
use arrayvec::ArrayVec;
use cfg_code::Loaded;
use outside_ports::Addr;
use pv_table::{BlockKind, Facts, FinalTimers, Outcome, Response, RunData, bytes_at};
use pv_values::{How, Text};
use script_host::{Answer, HostRun, HostWent, Lent, MessageView, Settings, Workshop};
use sim_text::{Cause, push_drop, push_out};
use sip_build::{reply, reply_to};
use sip_msg::{Message, Start};
use std::alloc::{AllocError as NoMemory, Global};

/// The data of a run of `request_route` over a request from this source, which has decided nothing.
pub(crate) fn data_at_first(
    alloc: Global,
    loaded: &Loaded,
    b: &[u8],
    m: &Message,
    source: Addr,
) -> Result<RunData, NoMemory>
    requires { Reads b.now m.now }
    ensures { IfOk result (λ d. state_of d ≡ beginning (facts_at_first loaded.now.parameters (received b.now m.now) source)) }
{
    let uri = Text::from_slice(alloc, request_uri(b, m))?;
    let timers = FinalTimers {
        invite: u64::from(loaded.parameters.fr_inv_timer),
        other: u64::from(loaded.parameters.fr_timer),
    };
    Ok(RunData {
        facts: Facts::new(alloc, BlockKind::Request, source, uri, timers),
        blocks: ArrayVec::new(),
    })
}

/// The URI of the request line; nothing of a response.
#[tactic(auto, using(pv_table::proofs::PartsWithin::start_within))]
fn request_uri<'a>(b: &'a [u8], m: &Message) -> &'a [u8]
    requires { Reads b.now m.now }
    ensures { result.now ≡ request_uri (received b.now m.now) }
{
    match m.start {
        Start::Request { uri, .. } => bytes_at(b, uri),
        Start::Status { .. } => &[],
    }
}

/// Runs `request_route` over a message to its end.
pub(crate) fn run_over<'a>(
    alloc: Global,
    loaded: &'a Loaded,
    settings: &'a Settings,
    b: &'a [u8],
    m: &'a Message,
    shop: &mut Workshop<'_>,
    objects: &mut Objects,
    at: u64,
    data: RunData,
) -> Result<(RunData, How), NoMemory>
    requires reads { Reads b.now m.now }
    requires patterns { shop.old ≡ loaded.now.patterns }
    requires stateless { HasNoTransaction «data».facts }
    ensures end { IfOk result (λ r. (script : Script) → Stands loaded.now script
        → RunsTo loaded.now.patterns (around loaded.now.parameters loaded.now.patterns settings.now (Some (received b.now m.now))) at script (state_of «data») objects.old r.0 r.1 objects.new) }
    ensures same { shop.new ≡ shop.old }
{
    let lent = Lent {
        loaded,
        settings,
        message: Some(MessageView {
            bytes: b,
            message: m,
        }),
    };
    run_block(alloc, &lent, shop, objects, at, data)
}

/// Runs `request_route` to its end, and answers what it asks.
fn run_block(
    alloc: Global,
    lent: &Lent<'_>,
    shop: &mut Workshop<'_>,
    objects: &mut Objects,
    at: u64,
    data: RunData,
) -> Result<(RunData, How), NoMemory>
    requires reads { IsRead lent.now }
    requires patterns { shop.old ≡ lent.now.loaded.now.patterns }
    requires stateless { HasNoTransaction «data».facts }
    ensures end { IfOk result (λ r. (script : Script) → Stands lent.now.loaded.now script
        → RunsTo lent.now.loaded.now.patterns (around_of lent.now) at script (state_of «data») objects.old r.0 r.1 objects.new) }
    ensures same { shop.new ≡ shop.old }
{
    let loaded = lent.loaded;
    let Ok(mut run) = HostRun::begin(alloc, loaded, shop, loaded.request, data) else {
        return Err(NoMemory);
    };
    let mut answer = Answer::Start;
    loop {
        match run.advance(alloc, lent, shop, answer) {
            HostWent::Asks => {
                answer = objects.answer(alloc, &loaded.patterns, at, run.take_ask())?;
            }
            HostWent::Ended => return Ok(run.close(alloc, shop)),
            HostWent::NoMemory => return Err(NoMemory),
        }
    }
}

/// Shows what a run has decided. As long as no function of a transaction has started, that is a response or nothing.
pub(crate) fn conclude(
    alloc: Global,
    b: &[u8],
    m: &Message,
    source: Addr,
    at: u64,
    facts: &Facts,
    how: How,
    room: &mut Outgoing,
    trace: &mut Vec<u8>,
) -> Result<(), NoMemory>
    requires { Reads b.now m.now }
    ensures { OnOk result (HasNoTransaction facts.now → trace.new.items ≡ trace.old.items
        ++ items_text (shown_decision at (received b.now m.now) source facts.now how facts.now.outcome)) }
{
    match &facts.outcome {
        Outcome::Undecided => push_drop(alloc, trace, at, silent_cause(how)),
        Outcome::Stateless(response) => respond(alloc, b, m, source, at, response, room, trace),
        Outcome::Answered(_) | Outcome::Relayed(_) | Outcome::Suspended => Err(NoMemory),
    }
}

/// Why a request on which nothing was decided is dropped.
fn silent_cause(how: How) -> Cause
    ensures { result ≡ (if is_drop how then Cause.ScriptDrop else Cause.ScriptSilent) }
{
    match how {
        How::Drop => Cause::ScriptDrop,
        _ => Cause::ScriptSilent,
    }
}

/// Sends a response, where it reads.
fn respond(
    alloc: Global,
    b: &[u8],
    m: &Message,
    source: Addr,
    at: u64,
    response: &Response,
    room: &mut Outgoing,
    trace: &mut Vec<u8>,
) -> Result<(), NoMemory>
    requires { Reads b.now m.now }
    ensures { OnOk result (trace.new.items ≡ trace.old.items ++ items_text (shown_response at
        (reply_address m.now.via source) (loose_response (received b.now m.now) source response.now))) }
{
    let reason = response.reason.bytes();
    match reply(
        b,
        m,
        source,
        response.code,
        reason,
        room.bytes.as_mut_slice(),
    ) {
        Ok(len) => {
            let text = &room.bytes[..len];
            match Message::read_into(text, &mut room.reading) {
                Ok(()) => push_out(alloc, trace, at, reply_to(m, source), text),
                Err(_) => Ok(()),
            }
        }
        Err(_) => Ok(()),
    }
}
