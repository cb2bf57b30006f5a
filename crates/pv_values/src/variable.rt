//! The variables that a run reads and writes at its host.

ghost use Rattle.std.specs.Prelude.{◌≡◌, IfOk};
ghost use Rattle.pv_values.specs.Kinds.{is_written_in};

use crate::block::BlockKind;
use crate::table::Key;
use crate::text::Text;
use std::alloc::{AllocError as NoMemory, Global};

/// A variable that isn't the run's own (`$var`, `$rc`), with its literal name, or its table and the
/// expanded key.
#[derive(Debug, Drop)]
pub enum PvUse {
    /// `$ru`
    RequestUri,
    /// `$rU`
    RequestUser,
    /// `$rd`
    RequestHost,
    /// `$rp`
    RequestPort,
    /// `$du`
    DestinationUri,
    /// `$fu`
    FromUri,
    /// `$fU`
    FromUser,
    /// `$fd`
    FromHost,
    /// `$ft`
    FromTag,
    /// `$tu`
    ToUri,
    /// `$tU`
    ToUser,
    /// `$td`
    ToHost,
    /// `$tt`
    ToTag,
    /// `$ci`
    CallId,
    /// `$cs`
    CseqNumber,
    /// `$rm`
    CseqMethod,
    /// `$si`
    SourceAddress,
    /// `$sp`
    SourcePort,
    /// `$rs`
    ReplyCode,
    /// `$rr`
    ReplyReason,
    /// `$ua`
    UserAgent,
    /// `$hdr(NAME)`
    Header(Text),
    /// `$avp(NAME)`
    Avp(Text),
    /// `$sht(TABLE=>KEY)`
    Item(u32, Key),
    /// `$shtex(TABLE=>KEY)`
    ItemSeconds(u32, Key),
    /// `$shtinc(TABLE=>KEY)`
    ItemIncrement(u32, Key),
    /// `$shtdec(TABLE=>KEY)`
    ItemDecrement(u32, Key),
    /// `$T(id_index)`
    IdIndex,
    /// `$T(id_label)`
    IdLabel,
    /// `$null`
    Null,
    /// `uri == myself`, which reads 1 or 0.
    Myself,
}

impl PvUse {
    pub fn copy(&self, alloc: Global) -> Result<PvUse, NoMemory>
        ensures { IfOk result (λ v. v ≡ self.now) }
    {
        match self {
            PvUse::Header(name) => Ok(PvUse::Header(name.copy(alloc)?)),
            PvUse::Avp(name) => Ok(PvUse::Avp(name.copy(alloc)?)),
            PvUse::Item(table, key) => Ok(PvUse::Item(*table, key.copy(alloc)?)),
            PvUse::ItemSeconds(table, key) => Ok(PvUse::ItemSeconds(*table, key.copy(alloc)?)),
            PvUse::ItemIncrement(table, key) => Ok(PvUse::ItemIncrement(*table, key.copy(alloc)?)),
            PvUse::ItemDecrement(table, key) => Ok(PvUse::ItemDecrement(*table, key.copy(alloc)?)),
            PvUse::RequestUri => Ok(PvUse::RequestUri),
            PvUse::RequestUser => Ok(PvUse::RequestUser),
            PvUse::RequestHost => Ok(PvUse::RequestHost),
            PvUse::RequestPort => Ok(PvUse::RequestPort),
            PvUse::DestinationUri => Ok(PvUse::DestinationUri),
            PvUse::FromUri => Ok(PvUse::FromUri),
            PvUse::FromUser => Ok(PvUse::FromUser),
            PvUse::FromHost => Ok(PvUse::FromHost),
            PvUse::FromTag => Ok(PvUse::FromTag),
            PvUse::ToUri => Ok(PvUse::ToUri),
            PvUse::ToUser => Ok(PvUse::ToUser),
            PvUse::ToHost => Ok(PvUse::ToHost),
            PvUse::ToTag => Ok(PvUse::ToTag),
            PvUse::CallId => Ok(PvUse::CallId),
            PvUse::CseqNumber => Ok(PvUse::CseqNumber),
            PvUse::CseqMethod => Ok(PvUse::CseqMethod),
            PvUse::SourceAddress => Ok(PvUse::SourceAddress),
            PvUse::SourcePort => Ok(PvUse::SourcePort),
            PvUse::ReplyCode => Ok(PvUse::ReplyCode),
            PvUse::ReplyReason => Ok(PvUse::ReplyReason),
            PvUse::UserAgent => Ok(PvUse::UserAgent),
            PvUse::IdIndex => Ok(PvUse::IdIndex),
            PvUse::IdLabel => Ok(PvUse::IdLabel),
            PvUse::Null => Ok(PvUse::Null),
            PvUse::Myself => Ok(PvUse::Myself),
        }
    }

    /// A block of this kind may assign the variable.
    pub fn is_written_in(&self, kind: BlockKind) -> bool
        ensures { result ≡ is_written_in self.now kind }
    {
        match self {
            PvUse::RequestUri
            | PvUse::RequestUser
            | PvUse::RequestHost
            | PvUse::RequestPort
            | PvUse::DestinationUri => match kind {
                BlockKind::Request | BlockKind::Branch | BlockKind::Failure => true,
                BlockKind::Reply | BlockKind::Event => false,
            },
            PvUse::Avp(_) => match kind {
                BlockKind::Event => false,
                _ => true,
            },
            PvUse::Item(_, _) | PvUse::ItemSeconds(_, _) => true,
            _ => false,
        }
    }
}

/// What a script makes of a variable's value: `$(NAME{..})`.
#[derive(Clone, Copy, Debug, PartialEq, Eq)]
pub enum Transformation {
    /// `{s.len}`: the length of its text.
    Length,
    /// `{s.int}`: its number.
    Number,
    /// `{uri.user}`: the user of its text, which is a `sip` or `sips` URI.
    UriUser,
    /// `{uri.host}`: the host of such a text.
    UriHost,
}
