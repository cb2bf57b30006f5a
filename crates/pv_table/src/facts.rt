//! The data of a run: what it knows of its message and of its transaction, and what it has decided so far.
ghost use Rattle.std.specs.Prelude.{◌≡◌};

use crate::avps::Avps;
use arrayvec::ArrayVec;
use buf_pool::Block;
use msg_edits::Edits;
use outside_ports::Addr;
use pv_values::{BlockKind, Text};
use sqlite_items::Items;
use std::alloc::Global;

/// How many blocks a run can hold: two for each of the twelve branches of a transaction.
pub const BLOCKS: usize = 24;

/// The data of a run of a block: its facts, and the blocks that it was answered and hasn't given back. The message's bytes
/// and their reading are lent to each call.
#[derive(Drop)]
pub struct RunData {
    pub facts: Facts,
    /// Taken by `t_relay`, two for each target. Each is there.
    pub blocks: ArrayVec<Option<Block>, BLOCKS>,
}

/// What a run knows and has decided. Contracts see it as plain data. A field names the function of the script that sets
/// it; where it names none, whoever begins the run does. A withdrawn suspension belongs behind `suspensions`, a held best
/// response behind `best_code`, a kept selection of destinations behind `destination`, and the key and value of an expired
/// item at the end.
#[derive(Drop)]
pub struct Facts {
    /// The kind of the block that the run began with. In an event block there is no message.
    pub kind: BlockKind,
    /// Where the message came from.
    pub source: Addr,
    /// The edits of the message, made by this run and, where it goes on with a request, by those before it: by
    /// `append_hf`, `remove_hf`, `record_route` and `loose_route`.
    pub edits: Edits,
    /// `$ru`, the target URI: that of the request line, unless an assignment or `loose_route` changed it.
    pub uri: Text,
    /// `$du`, the destination URI, where an assignment or `loose_route` set it.
    pub destination: Option<Text>,
    /// The targets that `append_branch` added and no `t_relay` has used yet, in this order.
    pub targets: Items<Target>,
    /// The blocks that `t_on_branch`, `t_on_failure` and `t_on_reply` armed.
    pub armed: ArmedBlocks,
    /// The values of `$avp`, by assignments.
    pub avps: Avps,
    /// What `sl_send_reply`, `t_reply`, `t_relay` or `t_suspend` decided.
    pub outcome: Outcome,
    /// The responses that were decided and are no outcome, in this order: provisional ones by `t_reply`, the 100 by
    /// `t_relay` and `t_suspend`, and the 200 or 481 by `t_relay` on a CANCEL.
    pub responses: Items<Response>,
    /// `t_relay` was called.
    pub has_called_relay: bool,
    /// `t_set_fr` sets them.
    pub final_timers: FinalTimers,
    /// The number of the transaction's slot.
    pub slot: u32,
    /// How often that slot was used before.
    pub generation: u64,
    /// The label of the last suspension, where `t_suspend` made one.
    pub label: Option<u64>,
    /// How many suspensions `t_suspend` has opened in the transaction.
    pub suspensions: u8,
    /// How the transaction stands, with what `t_newtran`, `t_reply`, `t_relay` and `t_suspend` of this run made of it.
    pub standing: Standing,
    /// The code of the best response, in a failure block.
    pub best_code: Option<u16>,
    /// How many branches `t_relay` has made in the transaction, those that were removed too.
    pub branches: u8,
    /// How many of them were removed before they were sent.
    pub removed: u8,
    /// How many suspended transactions this step has continued, by `t_continue`.
    pub continued: u8,
    /// This step is itself a continuation.
    pub is_continuation: bool,
    /// `record_route` was called.
    pub has_record_route: bool,
    /// The code of `loose_route`, where it was called.
    pub loose_route: Option<i64>,
    /// The argument of `mf_process_maxfwd_header`, where it was called.
    pub absent_hops: Option<u8>,
}

impl Facts {
    ghost use Rattle.pv_table.specs.Facts.{undecided_facts};

    /// The facts of a run that has decided nothing, over a message that came from `source` and whose target is `uri`.
    pub fn new(
        alloc: Global,
        kind: BlockKind,
        source: Addr,
        uri: Text,
        final_timers: FinalTimers,
    ) -> Facts
        ensures { result ≡ undecided_facts kind source uri final_timers }
    {
        Facts {
            kind,
            source,
            edits: Edits::new(),
            uri,
            destination: None,
            targets: Items::new(alloc),
            armed: ArmedBlocks {
                branch: None,
                failure: None,
                reply: None,
            },
            avps: Avps::new(alloc),
            outcome: Outcome::Undecided,
            responses: Items::new(alloc),
            has_called_relay: false,
            final_timers,
            slot: 0,
            generation: 0,
            label: None,
            suspensions: 0,
            standing: Standing {
                exists: false,
                has_responded: false,
                is_answered: false,
                is_cancelled: false,
                is_suspended: false,
            },
            best_code: None,
            branches: 0,
            removed: 0,
            continued: 0,
            is_continuation: false,
            has_record_route: false,
            loose_route: None,
            absent_hops: None,
        }
    }
}

/// A target of a request: its URI, and the URI to which it is sent where that is another one.
#[derive(Debug, Drop)]
pub struct Target {
    pub uri: Text,
    pub destination: Option<Text>,
}

/// The numbers of the blocks that are armed, by kind.
#[derive(Clone, Copy, Debug, PartialEq, Eq)]
pub struct ArmedBlocks {
    /// Runs for each branch before it is sent.
    pub branch: Option<u32>,
    /// Runs once all branches have failed.
    pub failure: Option<u32>,
    /// Runs for each response.
    pub reply: Option<u32>,
}

/// A response that a script decides.
#[derive(Debug, Drop)]
pub struct Response {
    /// 100 to 699.
    pub code: u16,
    pub reason: Text,
}

/// What `t_relay` sends on: the edits, the targets and the rest as they stood when it was called.
#[derive(Drop)]
pub struct Relay {
    pub edits: Edits,
    /// The first target: `$ru`, and `$du` where it is set.
    pub uri: Text,
    pub destination: Option<Text>,
    /// The targets behind it.
    pub targets: Items<Target>,
    /// The argument of `mf_process_maxfwd_header`, where it was called.
    pub absent_hops: Option<u8>,
}

/// What a run has decided on its message. It decides once.
#[derive(Drop)]
pub enum Outcome {
    /// Nothing yet.
    Undecided,
    /// A response without a transaction (`sl_send_reply`).
    Stateless(Response),
    /// A final response of the transaction (`t_reply`).
    Answered(Response),
    /// The request is sent to its targets (`t_relay`).
    Relayed(Relay),
    /// The request waits until it is continued (`t_suspend`).
    Suspended,
}

/// How long a transaction waits for a final response, in milliseconds.
#[derive(Clone, Copy, Debug, PartialEq, Eq)]
pub struct FinalTimers {
    /// After a provisional response to an INVITE (`fr_inv_timer`).
    pub invite: u64,
    /// Before any response, and for every request that is no INVITE (`fr_timer`).
    pub other: u64,
}

/// How the transaction of a message stands.
#[derive(Clone, Copy, Debug, PartialEq, Eq)]
pub struct Standing {
    /// There is a transaction.
    pub exists: bool,
    /// A response was decided, be it a provisional one.
    pub has_responded: bool,
    /// A final response was decided.
    pub is_answered: bool,
    /// A CANCEL came.
    pub is_cancelled: bool,
    /// It waits until it is continued.
    pub is_suspended: bool,
}
