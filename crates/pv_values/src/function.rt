//! The functions that a run calls at its host.

ghost use Rattle.std.specs.Prelude.{◌≡◌, IfOk};
ghost use Rattle.pv_values.specs.Kinds.{name_of};

use crate::function_name::FuncName;
use crate::text::Text;
use std::alloc::{AllocError as NoMemory, Global};

/// A function, with its literal arguments. The values of the expanded ones stand beside it in an ask.
#[derive(Debug, Drop)]
pub enum Func {
    /// `sl_send_reply(code, reason)`: the code. The reason is expanded.
    SlSendReply(u16),
    /// `t_newtran()`
    TNewtran,
    /// `t_reply(code, reason)`: the code. The reason is expanded.
    TReply(u16),
    /// `t_relay()`
    TRelay,
    /// `append_branch([uri])`: the uri is expanded.
    AppendBranch,
    /// `t_on_branch(block)`: the number of the block.
    TOnBranch(u32),
    /// `t_on_failure(block)`: the number of the block.
    TOnFailure(u32),
    /// `t_on_reply(block)`: the number of the block.
    TOnReply(u32),
    /// `t_set_fr(inv, other)`: both are expanded.
    TSetFr,
    /// `t_check_trans()`
    TCheckTrans,
    /// `t_is_canceled()`
    TIsCanceled,
    /// `t_check_status(re)`: the number of the pattern.
    TCheckStatus(u32),
    /// `t_suspend()`
    TSuspend,
    /// `t_continue(index, label, route)`: the number of the block. The others are expanded.
    TContinue(u32),
    /// `is_method(list)`: the methods with `|` between them.
    IsMethod(Text),
    /// `has_totag()`
    HasTotag,
    /// `is_present_hf(name)`
    IsPresentHf(Text),
    /// `remove_hf(name)`
    RemoveHf(Text),
    /// `append_hf(text)`: the text is expanded.
    AppendHf,
    /// `mf_process_maxfwd_header(n)`: 1 to 255.
    MfProcessMaxfwdHeader(u8),
    /// `record_route()`
    RecordRoute,
    /// `loose_route()`
    LooseRoute,
    /// `xlog([level,] text)`: the text is expanded.
    Xlog,
    /// `sht_rm_name_re("table=>re")`: the numbers of the table and of the pattern.
    ShtRmNameRe(u32, u32),
    /// `sht_reset("table")`: the number of the table.
    ShtReset(u32),
}

impl Func {
    pub fn copy(&self, alloc: Global) -> Result<Func, NoMemory>
        ensures { IfOk result (λ f. f ≡ self.now) }
    {
        match self {
            Func::IsMethod(list) => Ok(Func::IsMethod(list.copy(alloc)?)),
            Func::IsPresentHf(name) => Ok(Func::IsPresentHf(name.copy(alloc)?)),
            Func::RemoveHf(name) => Ok(Func::RemoveHf(name.copy(alloc)?)),
            Func::SlSendReply(code) => Ok(Func::SlSendReply(*code)),
            Func::TReply(code) => Ok(Func::TReply(*code)),
            Func::TOnBranch(block) => Ok(Func::TOnBranch(*block)),
            Func::TOnFailure(block) => Ok(Func::TOnFailure(*block)),
            Func::TOnReply(block) => Ok(Func::TOnReply(*block)),
            Func::TCheckStatus(pattern) => Ok(Func::TCheckStatus(*pattern)),
            Func::TContinue(block) => Ok(Func::TContinue(*block)),
            Func::MfProcessMaxfwdHeader(n) => Ok(Func::MfProcessMaxfwdHeader(*n)),
            Func::ShtRmNameRe(table, pattern) => Ok(Func::ShtRmNameRe(*table, *pattern)),
            Func::ShtReset(table) => Ok(Func::ShtReset(*table)),
            Func::TNewtran => Ok(Func::TNewtran),
            Func::TRelay => Ok(Func::TRelay),
            Func::AppendBranch => Ok(Func::AppendBranch),
            Func::TSetFr => Ok(Func::TSetFr),
            Func::TCheckTrans => Ok(Func::TCheckTrans),
            Func::TIsCanceled => Ok(Func::TIsCanceled),
            Func::TSuspend => Ok(Func::TSuspend),
            Func::HasTotag => Ok(Func::HasTotag),
            Func::AppendHf => Ok(Func::AppendHf),
            Func::RecordRoute => Ok(Func::RecordRoute),
            Func::LooseRoute => Ok(Func::LooseRoute),
            Func::Xlog => Ok(Func::Xlog),
        }
    }

    /// The function without its arguments.
    pub fn name(&self) -> FuncName
        ensures { result ≡ name_of self.now }
    {
        match self {
            Func::SlSendReply(_) => FuncName::SlSendReply,
            Func::TNewtran => FuncName::TNewtran,
            Func::TReply(_) => FuncName::TReply,
            Func::TRelay => FuncName::TRelay,
            Func::AppendBranch => FuncName::AppendBranch,
            Func::TOnBranch(_) => FuncName::TOnBranch,
            Func::TOnFailure(_) => FuncName::TOnFailure,
            Func::TOnReply(_) => FuncName::TOnReply,
            Func::TSetFr => FuncName::TSetFr,
            Func::TCheckTrans => FuncName::TCheckTrans,
            Func::TIsCanceled => FuncName::TIsCanceled,
            Func::TCheckStatus(_) => FuncName::TCheckStatus,
            Func::TSuspend => FuncName::TSuspend,
            Func::TContinue(_) => FuncName::TContinue,
            Func::IsMethod(_) => FuncName::IsMethod,
            Func::HasTotag => FuncName::HasTotag,
            Func::IsPresentHf(_) => FuncName::IsPresentHf,
            Func::RemoveHf(_) => FuncName::RemoveHf,
            Func::AppendHf => FuncName::AppendHf,
            Func::MfProcessMaxfwdHeader(_) => FuncName::MfProcessMaxfwdHeader,
            Func::RecordRoute => FuncName::RecordRoute,
            Func::LooseRoute => FuncName::LooseRoute,
            Func::Xlog => FuncName::Xlog,
            Func::ShtRmNameRe(_, _) => FuncName::ShtRmNameRe,
            Func::ShtReset(_) => FuncName::ShtReset,
        }
    }
}
