//! A transaction.
ghost use Rattle.std.specs.Prelude.{◌≤◌, vec_len};

use crate::branch::Branch;
use crate::text_block::TextBlock;
use fork_core::Context;
use msg_edits::Edits;
use outside_ports::Addr;
use pv_table::{ArmedBlocks, Avps, FinalTimers, Target};
use pv_values::Text;
use sqlite_items::Items;
use txn_server::Server;

/// A transaction: what no step changes (the generation of its slot, the request as it was received and where that came from),
/// the script's part, and how far it has come.
#[derive(Drop)]
pub struct Txn {
    /// How often its slot was used before.
    pub generation: u64,
    pub source: Addr,
    pub request: TextBlock,
    /// The response that the server repeats.
    pub response: TextBlock,
    pub script: ScriptState,
    pub progress: Progress,
    pub context: Context,
    /// In order of number; twelve at most.
    pub branches: Vec<Branch>,
    ghost few: { vec_len branches ≤ 12 },
}

/// The script's part of a transaction, which its runs hand on from one to the next.
#[derive(Drop)]
pub struct ScriptState {
    /// The edits of the request.
    pub edits: Edits,
    /// `$ru`
    pub uri: Text,
    /// `$du`
    pub destination: Option<Text>,
    /// The targets that `append_branch` added and no `t_relay` has used yet.
    pub targets: Items<Target>,
    pub avps: Avps,
    pub armed: ArmedBlocks,
    pub final_timers: FinalTimers,
    /// `record_route` was called.
    pub has_record_route: bool,
    /// The code of `loose_route`, where it was called.
    pub loose_route: Option<i64>,
    /// The argument of `mf_process_maxfwd_header`, where it was called.
    pub absent_hops: Option<u8>,
    /// The label of the last suspension.
    pub label: Option<u64>,
    /// How many suspensions were opened.
    pub suspensions: u8,
}

/// How far a transaction has come, without its texts, its branches and the script's part.
#[derive(Clone, Copy, Debug, PartialEq, Eq)]
pub struct Progress {
    pub server: Server,
    /// There is a response that the server repeats.
    pub has_response: bool,
    /// How many targets were removed before they became branches.
    pub removed: u8,
    /// The serial of the open suspension.
    pub suspension: Option<u64>,
    /// When timer S is due, in milliseconds.
    pub suspension_due: Option<u64>,
    /// A CANCEL came.
    pub is_cancelled: bool,
    /// A continuation is still to run after it.
    pub is_owed: bool,
}
