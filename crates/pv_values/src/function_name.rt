//! The functions of the language by their names: the one table of them.

ghost use Rattle.std.specs.Prelude.{◌≡◌};
ghost use Rattle.pv_values.specs.Kinds.{works_in, row, stands_in, function_named};

use crate::block::BlockKind;

/// The kinds of blocks in which a function works.
#[derive(Clone, Copy, Debug, PartialEq, Eq)]
pub struct Blocks {
    pub request: bool,
    pub branch: bool,
    pub failure: bool,
    pub reply: bool,
    pub event: bool,
}

const REQUEST: Blocks = Blocks {
    request: true,
    branch: false,
    failure: false,
    reply: false,
    event: false,
};

const REQUEST_FAILURE: Blocks = Blocks {
    request: true,
    branch: false,
    failure: true,
    reply: false,
    event: false,
};

const REQUEST_FAILURE_REPLY: Blocks = Blocks {
    request: true,
    branch: false,
    failure: true,
    reply: true,
    event: false,
};

const FAILURE_REPLY: Blocks = Blocks {
    request: false,
    branch: false,
    failure: true,
    reply: true,
    event: false,
};

const ALL_BUT_BRANCH: Blocks = Blocks {
    request: true,
    branch: false,
    failure: true,
    reply: true,
    event: true,
};

const ALL_BUT_EVENT: Blocks = Blocks {
    request: true,
    branch: true,
    failure: true,
    reply: true,
    event: false,
};

const ALL: Blocks = Blocks {
    request: true,
    branch: true,
    failure: true,
    reply: true,
    event: true,
};

impl Blocks {
    /// A block of this kind is one of them.
    pub fn has(self, kind: BlockKind) -> bool
        ensures { result ≡ works_in self kind }
    {
        match kind {
            BlockKind::Request => self.request,
            BlockKind::Branch => self.branch,
            BlockKind::Failure => self.failure,
            BlockKind::Reply => self.reply,
            BlockKind::Event => self.event,
        }
    }
}

/// A function of the language, without its arguments.
#[derive(Clone, Copy, Debug, PartialEq, Eq)]
pub enum FuncName {
    /// `sl_send_reply`
    SlSendReply,
    /// `t_newtran`
    TNewtran,
    /// `t_reply`
    TReply,
    /// `t_relay`
    TRelay,
    /// `append_branch`
    AppendBranch,
    /// `t_on_branch`
    TOnBranch,
    /// `t_on_failure`
    TOnFailure,
    /// `t_on_reply`
    TOnReply,
    /// `t_set_fr`
    TSetFr,
    /// `t_check_trans`
    TCheckTrans,
    /// `t_is_canceled`
    TIsCanceled,
    /// `t_check_status`
    TCheckStatus,
    /// `t_suspend`
    TSuspend,
    /// `t_continue`
    TContinue,
    /// `is_method`
    IsMethod,
    /// `has_totag`
    HasTotag,
    /// `is_present_hf`
    IsPresentHf,
    /// `remove_hf`
    RemoveHf,
    /// `append_hf`
    AppendHf,
    /// `mf_process_maxfwd_header`
    MfProcessMaxfwdHeader,
    /// `record_route`
    RecordRoute,
    /// `loose_route`
    LooseRoute,
    /// `xlog`
    Xlog,
    /// `sht_rm_name_re`
    ShtRmNameRe,
    /// `sht_reset`
    ShtReset,
}

impl FuncName {
    /// All of them.
    pub const ALL: [FuncName; 25] = [
        FuncName::SlSendReply,
        FuncName::TNewtran,
        FuncName::TReply,
        FuncName::TRelay,
        FuncName::AppendBranch,
        FuncName::TOnBranch,
        FuncName::TOnFailure,
        FuncName::TOnReply,
        FuncName::TSetFr,
        FuncName::TCheckTrans,
        FuncName::TIsCanceled,
        FuncName::TCheckStatus,
        FuncName::TSuspend,
        FuncName::TContinue,
        FuncName::IsMethod,
        FuncName::HasTotag,
        FuncName::IsPresentHf,
        FuncName::RemoveHf,
        FuncName::AppendHf,
        FuncName::MfProcessMaxfwdHeader,
        FuncName::RecordRoute,
        FuncName::LooseRoute,
        FuncName::Xlog,
        FuncName::ShtRmNameRe,
        FuncName::ShtReset,
    ];

    /// Its name, and the blocks in which it works.
    fn row(self) -> (&'static [u8], Blocks)
        ensures name { result.0.now ≡ (row self).name }
        ensures blocks { result.1 ≡ (row self).blocks }
    {
        match self {
            FuncName::SlSendReply => (b"sl_send_reply", REQUEST),
            FuncName::TNewtran => (b"t_newtran", REQUEST),
            FuncName::TReply => (b"t_reply", REQUEST_FAILURE),
            FuncName::TRelay => (b"t_relay", REQUEST_FAILURE),
            FuncName::AppendBranch => (b"append_branch", REQUEST_FAILURE),
            FuncName::TOnBranch => (b"t_on_branch", REQUEST_FAILURE),
            FuncName::TOnFailure => (b"t_on_failure", REQUEST_FAILURE),
            FuncName::TOnReply => (b"t_on_reply", REQUEST_FAILURE),
            FuncName::TSetFr => (b"t_set_fr", REQUEST_FAILURE),
            FuncName::TCheckTrans => (b"t_check_trans", REQUEST),
            FuncName::TIsCanceled => (b"t_is_canceled", REQUEST_FAILURE_REPLY),
            FuncName::TCheckStatus => (b"t_check_status", FAILURE_REPLY),
            FuncName::TSuspend => (b"t_suspend", REQUEST),
            FuncName::TContinue => (b"t_continue", ALL_BUT_BRANCH),
            FuncName::IsMethod => (b"is_method", ALL),
            FuncName::HasTotag => (b"has_totag", ALL_BUT_EVENT),
            FuncName::IsPresentHf => (b"is_present_hf", ALL_BUT_EVENT),
            FuncName::RemoveHf => (b"remove_hf", ALL_BUT_EVENT),
            FuncName::AppendHf => (b"append_hf", ALL_BUT_EVENT),
            FuncName::MfProcessMaxfwdHeader => (b"mf_process_maxfwd_header", REQUEST),
            FuncName::RecordRoute => (b"record_route", REQUEST),
            FuncName::LooseRoute => (b"loose_route", REQUEST),
            FuncName::Xlog => (b"xlog", ALL),
            FuncName::ShtRmNameRe => (b"sht_rm_name_re", ALL),
            FuncName::ShtReset => (b"sht_reset", ALL),
        }
    }

    /// The name by which a script calls it.
    pub fn name(self) -> &'static [u8]
        ensures { result.now ≡ (row self).name }
    {
        self.row().0
    }

    /// It works in a run that a block of this kind began.
    pub fn stands_in(self, kind: BlockKind) -> bool
        ensures { result ≡ stands_in self kind }
    {
        self.row().1.has(kind)
    }

    /// The function of this name.
    pub fn named(name: &[u8]) -> Option<FuncName>
        ensures { result ≡ function_named name.now }
    {
        FuncName::ALL.iter().copied().find(|f| name == f.name())
    }
}
