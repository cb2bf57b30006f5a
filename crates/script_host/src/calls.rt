//! Functions: which of them have started, and what each is lent.
ghost use Rattle.std.specs.Prelude.{◌≡◌, IfOk, OnErr, IsTrue};
ghost use Rattle.pv_values.specs.Kinds.{name_of};
ghost use Rattle.host_meaning.specs.Run.{argument, received};
ghost use Rattle.host_meaning.specs.Rows.{has_started, call_row, called, call_over, call_without};
ghost use Rattle.host_meaning.specs.Transactions.{t_check_trans};
ghost use Rattle.host_meaning.specs.TableRows.{xlog, asks_table, counted_by_reply};
ghost use Rattle.sip_msg.specs.Table.{Reads};
ghost use Rattle.script_host.specs.Lending.{around_of, received_of, IsRead, state_of};
ghost use Rattle.script_host.specs.Rows.{IsRowOf, IsGoing, AsksBelow, most_asks};

use crate::ask::Ask;
use crate::lent::{Lent, MessageView};
use crate::relaying::relay;
use crate::row::{Going, Row, Wait};
use ht_core::TabOp;
use message_functions::{
    TextRoom, append_hf, has_totag, is_method, is_present_hf, loose_route,
    mf_process_maxfwd_header, record_route, remove_hf, sl_send_reply,
};
use pv_table::{Facts, RunData};
use pv_values::{Func, FuncName, HostAnswer, Text, Val, as_text};
use sip_msg::Message;
use std::alloc::{AllocError as NoMemory, Global};
use transaction_functions::{has_no_transaction, t_newtran, t_reply, t_set_fr};

/// The row of a function that is called. One that hasn't started, and one in a run that a block of another kind began,
/// returns -9. Out of memory the data stay as they were.
pub(crate) fn call(
    alloc: Global,
    lent: &Lent<'_>,
    room: &mut TextRoom,
    state: &mut RunData,
    function: &Func,
    values: &[Val],
) -> Result<Going, NoMemory>
    requires reads { IsRead lent.now }
    ensures row { IfOk result (λ g. IsGoing (around_of lent.now) (call_row (around_of lent.now) function.now values.now (state_of state.old)) g state.new) }
    ensures below { IfOk result (λ g. AsksBelow most_asks g) }
    ensures err { OnErr result (state_of state.new ≡ state_of state.old) }
{
    let name = function.name();
    if has_started(name) && name.stands_in(state.facts.kind) {
        called(alloc, lent, room, state, function, values)
    } else {
        Ok(Going::code(-9))
    }
}

/// The row of a function that has started.
fn called(
    alloc: Global,
    lent: &Lent<'_>,
    room: &mut TextRoom,
    state: &mut RunData,
    function: &Func,
    values: &[Val],
) -> Result<Going, NoMemory>
    requires reads { IsRead lent.now }
    requires started { IsTrue (has_started (name_of function.now)) }
    ensures row { IfOk result (λ g. IsGoing (around_of lent.now) (called (around_of lent.now) (received_of lent.now.message) function.now values.now (state_of state.old)) g state.new) }
    ensures below { IfOk result (λ g. AsksBelow most_asks g) }
    ensures err { OnErr result (state_of state.new ≡ state_of state.old) }
{
    let Some(message) = lent.message else {
        let row = call_without(alloc, lent, function, values)?;
        return Ok(Going::once(row));
    };
    match function {
        Func::TRelay => relay(alloc, lent, message, room, state),
        _ => {
            let facts = &mut state.facts;
            let row = call_over(alloc, lent, message, room, facts, function, values)?;
            Ok(Going::once(row))
        }
    }
}

/// Whether the function has started: every other one returns -9, and does nothing.
fn has_started(name: FuncName) -> bool
    ensures { result ≡ has_started name }
{
    match name {
        FuncName::SlSendReply
        | FuncName::IsMethod
        | FuncName::HasTotag
        | FuncName::IsPresentHf
        | FuncName::RemoveHf
        | FuncName::AppendHf
        | FuncName::MfProcessMaxfwdHeader
        | FuncName::RecordRoute
        | FuncName::LooseRoute
        | FuncName::Xlog
        | FuncName::ShtRmNameRe
        | FuncName::ShtReset => true,
        FuncName::TNewtran
        | FuncName::TReply
        | FuncName::TRelay
        | FuncName::AppendBranch
        | FuncName::TOnBranch
        | FuncName::TOnFailure
        | FuncName::TOnReply
        | FuncName::TSetFr
        | FuncName::TCheckTrans
        | FuncName::TIsCanceled
        | FuncName::TCheckStatus
        | FuncName::TSuspend
        | FuncName::TContinue => false,
    }
}

/// A function over a message.
fn call_over(
    alloc: Global,
    lent: &Lent<'_>,
    message: MessageView<'_>,
    room: &mut TextRoom,
    facts: &mut Facts,
    function: &Func,
    values: &[Val],
) -> Result<Row, NoMemory>
    requires reads { Reads message.bytes.now message.message.now }
    requires started { IsTrue (has_started (name_of function.now)) }
    ensures row { IfOk result (λ r. IsRowOf (call_over (around_of lent.now) (received message.entry.bytes.now message.entry.message.now) function.now values.now) facts.old r facts.new) }
    ensures err { OnErr result (facts.new ≡ facts.old) }
{
    let (b, m) = (message.bytes, message.message);
    match function {
        Func::SlSendReply(status) => {
            let reason = argument(alloc, values, 0)?;
            Ok(Row::code(sl_send_reply(b, m, facts, *status, reason, room)))
        }
        Func::IsMethod(methods) => Ok(Row::code(is_method(b, m, methods.bytes()))),
        Func::HasTotag => Ok(Row::code(has_totag(m))),
        Func::IsPresentHf(name) => Ok(Row::code(is_present_hf(b, m, name.bytes()))),
        Func::RemoveHf(name) => Ok(Row::code(remove_hf(b, m, facts, name.bytes()))),
        Func::AppendHf => {
            let text = argument(alloc, values, 0)?;
            Ok(Row::code(append_hf(alloc, b, m, facts, text.bytes(), room)?))
        }
        Func::MfProcessMaxfwdHeader(n) => Ok(Row::code(mf_process_maxfwd_header(m, facts, *n))),
        Func::RecordRoute => Ok(Row::code(record_route(alloc, m, facts, lent.settings.listen)?)),
        Func::LooseRoute => {
            let loaded = lent.loaded;
            let code = loose_route(alloc, b, m, facts, lent.settings, &loaded.parameters)?;
            Ok(Row::code(code))
        }
        Func::TNewtran => Ok(Row::code(t_newtran(b, m, facts))),
        Func::TReply(status) => {
            let reason = argument(alloc, values, 0)?;
            Ok(Row::code(t_reply(b, m, facts, *status, reason, room)?))
        }
        Func::TSetFr => {
            let invite = argument(alloc, values, 0)?;
            let other = argument(alloc, values, 1)?;
            Ok(Row::code(t_set_fr(facts, invite.bytes(), other.bytes())))
        }
        Func::TCheckTrans => Ok(find(b, m)),
        Func::Xlog => log(alloc, values),
        Func::ShtRmNameRe(table, pattern) => Ok(counted(*table, TabOp::RemoveMatching(*pattern))),
        Func::ShtReset(table) => Ok(counted(*table, TabOp::Reset)),
        _ => unreachable!(),
    }
}

/// A function without a message.
fn call_without(
    alloc: Global,
    lent: &Lent<'_>,
    function: &Func,
    values: &[Val],
) -> Result<Row, NoMemory>
    requires started { IsTrue (has_started (name_of function.now)) }
    ensures { IfOk result (λ r. (facts : Facts) → IsRowOf (call_without (around_of lent.now) function.now values.now) facts r facts) }
{
    match function {
        Func::IsMethod(_) => Ok(Row::code(-1)),
        Func::Xlog => log(alloc, values),
        Func::ShtRmNameRe(table, pattern) => Ok(counted(*table, TabOp::RemoveMatching(*pattern))),
        Func::ShtReset(table) => Ok(counted(*table, TabOp::Reset)),
        Func::SlSendReply(_)
        | Func::HasTotag
        | Func::IsPresentHf(_)
        | Func::RemoveHf(_)
        | Func::AppendHf
        | Func::MfProcessMaxfwdHeader(_)
        | Func::RecordRoute
        | Func::LooseRoute => Ok(Row::code(-9)),
        Func::TNewtran
        | Func::TReply(_)
        | Func::TRelay
        | Func::AppendBranch
        | Func::TOnBranch(_)
        | Func::TOnFailure(_)
        | Func::TOnReply(_)
        | Func::TSetFr
        | Func::TCheckTrans
        | Func::TIsCanceled
        | Func::TCheckStatus(_)
        | Func::TSuspend
        | Func::TContinue(_) => unreachable!(),
    }
}

/// The ask of `t_check_trans` for an ACK or a CANCEL; -1 for any other message.
fn find(b: &[u8], m: &Message) -> Row
    requires { Reads b.now m.now }
    ensures { (facts : Facts) → IsRowOf (t_check_trans (received b.now m.now)) facts result facts }
{
    if has_no_transaction(b, m) {
        Row::Asks(Ask::Find, Wait::Found)
    } else {
        Row::code(-1)
    }
}

/// The ask of `sht_rm_name_re` and `sht_reset`.
fn counted(table: u32, op: TabOp) -> Row
    ensures { (facts : Facts) → IsRowOf (asks_table table op counted_by_reply) facts result facts }
{
    Row::Asks(Ask::Table { table, op }, Wait::Counted)
}

/// The ask of `xlog`.
fn log(alloc: Global, values: &[Val]) -> Result<Row, NoMemory>
    ensures { IfOk result (λ r. (facts : Facts) → IsRowOf (xlog (argument values.now 0)) facts r facts) }
{
    let text = argument(alloc, values, 0)?;
    Ok(Row::Asks(Ask::Log { text }, Wait::Noted))
}

/// An expanded argument as a text.
fn argument(alloc: Global, values: &[Val], at: usize) -> Result<Text, NoMemory>
    ensures { IfOk result (λ t. t ≡ argument values.now at) }
{
    match values.get(at) {
        Some(value) => as_text(alloc, value),
        None => as_text(alloc, &Val::Null),
    }
}
