//! The kinds of blocks from which a run of a script begins (Kamailio core cookbook, "Routing Blocks").

/// The kinds of blocks from which a run begins. `route[NAME]` runs from a block of one of them.
#[derive(Clone, Copy, Debug, PartialEq, Eq)]
pub enum BlockKind {
    /// `request_route`: a request came.
    Request,
    /// `branch_route[NAME]`: a branch is about to be sent.
    Branch,
    /// `failure_route[NAME]`: all branches failed.
    Failure,
    /// `reply_route` and `onreply_route[NAME]`: a reply came.
    Reply,
    /// `event_route[NAME]`: something else happened, so there is no message.
    Event,
}
