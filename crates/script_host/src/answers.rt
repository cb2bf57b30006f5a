//! What an answer from outside tells a run that waits for it.
ghost use Rattle.std.specs.Prelude.{◌≡◌, IfOk, OnErr, Some, None, is_some, pos, negsuc, if◌then◌else◌};
ghost use Rattle.dialogue.specs.Course.{Ends};
ghost use Rattle.host_meaning.specs.Run.{RunState, Tells, Lacks};
ghost use Rattle.host_meaning.specs.TableRows.{value_of_reply, written_by_reply, counted_by_reply};
ghost use Rattle.script_host.specs.Asking.{as_heard};
ghost use Rattle.script_host.specs.Rows.{left};

use crate::ask::Answer;
use crate::row::Wait;
use ht_core::TabReply;
use pv_values::{HostAnswer, Val};
use std::alloc::AllocError as NoMemory;

/// What the answer tells a run that waits so. An answer that doesn't fit counts as an object that found no memory.
pub(crate) fn hear(wait: Wait, answer: Answer) -> Result<HostAnswer, NoMemory>
    ensures tells { IfOk result (λ told. (s : RunState) → left wait s (as_heard answer) ≡ Ends (Tells told s)) }
    ensures lacks { OnErr result ((s : RunState) → left wait s (as_heard answer) ≡ Ends (Lacks s)) }
{
    let told = match (wait, answer) {
        (Wait::Start, _) => Some(HostAnswer::Start),
        (Wait::Value, Answer::Table(reply)) => value_told(reply),
        (Wait::Written, Answer::Table(reply)) => write_told(&reply),
        (Wait::Counted, Answer::Table(reply)) => count_told(&reply),
        (Wait::Noted, Answer::Noted) => Some(HostAnswer::Code(1)),
        (Wait::Found, Answer::Found(at)) => Some(find_told(at)),
        _ => None,
    };
    told.ok_or(NoMemory)
}

/// What a variable of a table reads: Full, TooLong, NotNumber and Null read as `$null`.
fn value_told(reply: TabReply) -> Option<HostAnswer>
    ensures { result ≡ value_of_reply reply }
{
    match reply {
        TabReply::Value(v) => Some(HostAnswer::Value(v)),
        TabReply::Null | TabReply::Full | TabReply::TooLong | TabReply::NotNumber => {
            Some(HostAnswer::Value(Val::Null))
        }
        TabReply::Done | TabReply::Count(_) => None,
    }
}

/// What an assignment tells: one that was refused has no effect.
fn write_told(reply: &TabReply) -> Option<HostAnswer>
    ensures { result ≡ written_by_reply reply.now }
{
    match reply {
        TabReply::Done | TabReply::Null | TabReply::Full | TabReply::TooLong => {
            Some(HostAnswer::Written)
        }
        TabReply::NotNumber | TabReply::Value(_) | TabReply::Count(_) => None,
    }
}

/// What `t_check_trans` returns: 1 where the transaction is held, else -1.
fn find_told(at: Option<(u32, u64)>) -> HostAnswer
    ensures { result ≡ HostAnswer.Code (if is_some at then pos 1 else negsuc 0) }
{
    match at {
        Some(_) => HostAnswer::Code(1),
        None => HostAnswer::Code(-1),
    }
}

/// What `sht_rm_name_re` and `sht_reset` return: 1.
fn count_told(reply: &TabReply) -> Option<HostAnswer>
    ensures { result ≡ counted_by_reply reply.now }
{
    match reply {
        TabReply::Count(_) => Some(HostAnswer::Code(1)),
        _ => None,
    }
}
