//! A run that is handed on from answer to answer: the ACK of a call, and its text after the edits of the run.

ghost use Rattle.sip_msg.specs.Table.{Reads};
ghost use Rattle.script_host.specs.Lending.{IsRead};

use super::runs::loaded;
use arrayvec::ArrayVec;
use cfg_code::Loaded;
use ht_core::{TabOp, TabReply};
use msg_edits::apply;
use outside_ports::Addr;
use pv_table::{BlockKind, Facts, FinalTimers};
use pv_values::{How, Text, Val};
use script_host::{
    Answer, Ask, HostNext, Hosts, Lent, MessageView, RestorableRun, RunData, Settings, Workshop,
};
use sip_msg::Message;
use std::alloc::{AllocError, Global};
use std::process::Abort;
use std::test::Fail;

/// 127.0.0.1:5060
const LISTEN: Addr = Addr {
    ip: 2_130_706_433,
    port: 5060,
};

const SCRIPT: &str = "modparam('htable', 'htable', 't=>')
    request_route { loose_route(); record_route(); if ($sht(t=>calls) > 9) append_hf('X: 1\\r\\n'); }";

const ACK: &str =
    "ACK sip:b@192.0.2.9 SIP/2.0\r\nVia: SIP/2.0/UDP 192.0.2.1;branch=z9hG4bK6a\r\nMax-Forwards: 70\r\nFrom: <sip:u@192.0.2.1>;tag=f\r\nTo: <sip:b@192.0.2.9>;tag=t\r\nCall-ID: 6\r\nCSeq: 1 ACK\r\nContent-Length: 0\r\nRoute: <sip:127.0.0.1:5060;lr>\r\n\r\n";

/// The ACK without its Route field, and with a Record-Route field behind its Via.
const EDITED: &str =
    "ACK sip:b@192.0.2.9 SIP/2.0\r\nVia: SIP/2.0/UDP 192.0.2.1;branch=z9hG4bK6a\r\nRecord-Route: <sip:127.0.0.1:5060;lr>\r\nMax-Forwards: 70\r\nFrom: <sip:u@192.0.2.1>;tag=f\r\nTo: <sip:b@192.0.2.9>;tag=t\r\nCall-ID: 6\r\nCSeq: 1 ACK\r\nContent-Length: 0\r\n\r\n";

/// The same with a further field.
const EDITED_MORE: &str =
    "ACK sip:b@192.0.2.9 SIP/2.0\r\nVia: SIP/2.0/UDP 192.0.2.1;branch=z9hG4bK6a\r\nRecord-Route: <sip:127.0.0.1:5060;lr>\r\nMax-Forwards: 70\r\nFrom: <sip:u@192.0.2.1>;tag=f\r\nTo: <sip:b@192.0.2.9>;tag=t\r\nCall-ID: 6\r\nCSeq: 1 ACK\r\nContent-Length: 0\r\nX: 1\r\n\r\n";

fn settings(alloc: Global) -> Settings {
    Settings {
        listen: LISTEN,
        epoch: 0,
        slots: 1,
        blocks: 2,
        hosts: Hosts::of(Vec::new(alloc)),
        run_for: None,
    }
}

/// The data of a run that has decided nothing, over a request from 192.0.2.1, port 5060, to sip:b@192.0.2.9.
fn data(alloc: Global) -> Result<RunData, AllocError> {
    let source = Addr {
        ip: 3_221_225_985,
        port: 5060,
    };
    let timers = FinalTimers {
        invite: 120_000,
        other: 30_000,
    };
    let uri = Text::from_slice(alloc, b"sip:b@192.0.2.9")?;
    Ok(RunData {
        facts: Facts::new(alloc, BlockKind::Request, source, uri, timers),
        blocks: ArrayVec::new(),
    })
}

/// The item `calls` is asked of the first table.
fn asks_for_calls(ask: &Ask) -> bool {
    match ask {
        Ask::Table {
            table: 0,
            op: TabOp::Get(key),
        } => key.bytes() == b"calls".as_slice(),
        _ => false,
    }
}

/// The run that has asked for `calls`.
fn asking(
    alloc: Global,
    lent: &Lent<'_>,
    shop: &mut Workshop<'_>,
    data: RunData,
) -> Option<RestorableRun>
    requires { IsRead lent.now }
{
    let loaded = lent.loaded;
    match RestorableRun::begin(alloc, loaded, shop, loaded.request, data) {
        Ok(run) => match run.feed(alloc, lent, shop, Answer::Start) {
            HostNext::Asks(run, ask) => asks_for_calls(&ask).then_some(run),
            _ => None,
        },
        Err(_) => None,
    }
}

/// What the run comes to where its one ask is answered so: whether it has ended, and its data then.
fn played(
    alloc: Global,
    lent: &Lent<'_>,
    shop: &mut Workshop<'_>,
    data: RunData,
    answer: Answer,
) -> Option<(bool, RunData)>
    requires { IsRead lent.now }
{
    match asking(alloc, lent, shop, data) {
        Some(run) => match run.feed(alloc, lent, shop, answer) {
            HostNext::Ended(data, How::Normal) => Some((true, data)),
            HostNext::NoMemory(data) => Some((false, data)),
            _ => None,
        },
        None => None,
    }
}

/// The same of a run over this message.
fn played_over<'a>(
    alloc: Global,
    loaded: &'a Loaded,
    settings: &'a Settings,
    b: &'a [u8],
    m: &'a Message,
    answer: Answer,
) -> Result<Option<(bool, RunData)>, AllocError>
    requires { Reads b.now m.now }
{
    let data = data(alloc)?;
    let mut shop = Workshop::new(alloc, loaded)?;
    let lent = Lent {
        loaded,
        settings,
        message: Some(MessageView {
            bytes: b,
            message: m,
        }),
    };
    Ok(played(alloc, &lent, &mut shop, data, answer))
}

/// The text of the message after the edits of these data.
fn edited(alloc: Global, b: &[u8], data: &RunData) -> Result<Vec<u8>, AllocError> {
    let mut room = vec![in alloc; 0; 8192]?;
    let len = apply(b, data.facts.edits.as_slice(), room.as_mut_slice()).unwrap_or(0);
    room.truncate(len);
    Ok(room)
}

/// The message that these bytes are.
fn message(rt: &impl Abort, b: &[u8]) -> Message
    ensures { Reads b.now result }
{
    match Message::read(b) {
        Ok(m) => m,
        Err(fault) => panic!(rt; "{fault:?}"),
    }
}

/// Whether the run has ended where its ask is answered so, and the text of the message then; nothing where it asks another.
fn comes_to(
    rt: &impl Abort,
    alloc: Global,
    loaded: &Loaded,
    answer: Answer,
) -> Result<Option<(bool, Vec<u8>)>, AllocError> {
    let settings = settings(alloc);
    let b = ACK.as_bytes();
    let m = message(rt, b);
    match played_over(alloc, &*loaded, &settings, b, &m, answer)? {
        Some((ended, data)) => Ok(Some((ended, edited(alloc, b, &data)?))),
        None => Ok(None),
    }
}

/// It is so.
fn is_so(
    rt: &impl Abort,
    alloc: Global,
    loaded: &Loaded,
    answer: Answer,
    wanted: (bool, &str),
) -> Result<(), AllocError> {
    match comes_to(rt, alloc, loaded, answer)? {
        Some((ended, text)) => {
            assert_eq!(rt; ended, wanted.0);
            assert_eq!(rt; text.as_slice(), wanted.1.as_bytes());
        }
        None => assert!(rt; false, "it asks another"),
    }
    Ok(())
}

fn count(n: i64) -> Answer {
    Answer::Table(TabReply::Value(Val::Int(n)))
}

#[test]
fn an_ack_is_edited_as_far_as_there_is_memory(rt: HostRuntime) -> Result<(), Fail> {
    let alloc = rt.alloc();
    let Some(loaded) = loaded(alloc, SCRIPT)? else {
        return Err("refused".into());
    };
    is_so(&rt, alloc, &loaded, count(9), (true, EDITED))?;
    is_so(&rt, alloc, &loaded, count(10), (true, EDITED_MORE))?;
    is_so(
        &rt,
        alloc,
        &loaded,
        Answer::Table(TabReply::Null),
        (true, EDITED),
    )?;
    // Its edits are undone where there is no memory, and where the answer doesn't fit.
    is_so(&rt, alloc, &loaded, Answer::NoMemory, (false, ACK))?;
    is_so(&rt, alloc, &loaded, Answer::Sent, (false, ACK))?;
    Ok(())
}
