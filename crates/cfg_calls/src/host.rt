//! The names of variables, of tables' uses and of transformations.

ghost use Rattle.std.specs.Prelude.{◌≡◌};
ghost use Rattle.cfg_tree.specs.Names.{named, host_names, suspension_names, table_names, transformation_names};

use cfg_tree::TableUse;
use pv_values::{PvUse, Transformation};

/// The variable of the host of this name, which stands without brackets.
pub fn variable(name: &[u8]) -> Option<PvUse>
    ensures { result ≡ named name.now host_names }
{
    match name {
        b"ru" => Some(PvUse::RequestUri),
        b"rU" => Some(PvUse::RequestUser),
        b"rd" => Some(PvUse::RequestHost),
        b"rp" => Some(PvUse::RequestPort),
        b"du" => Some(PvUse::DestinationUri),
        b"fu" => Some(PvUse::FromUri),
        b"fU" => Some(PvUse::FromUser),
        b"fd" => Some(PvUse::FromHost),
        b"ft" => Some(PvUse::FromTag),
        b"tu" => Some(PvUse::ToUri),
        b"tU" => Some(PvUse::ToUser),
        b"td" => Some(PvUse::ToHost),
        b"tt" => Some(PvUse::ToTag),
        b"ci" => Some(PvUse::CallId),
        b"cs" => Some(PvUse::CseqNumber),
        b"rm" => Some(PvUse::CseqMethod),
        b"si" => Some(PvUse::SourceAddress),
        b"sp" => Some(PvUse::SourcePort),
        b"rs" => Some(PvUse::ReplyCode),
        b"rr" => Some(PvUse::ReplyReason),
        b"ua" => Some(PvUse::UserAgent),
        b"null" => Some(PvUse::Null),
        _ => None,
    }
}

/// The variable `$T(NAME)`.
pub fn suspension_variable(name: &[u8]) -> Option<PvUse>
    ensures { result ≡ named name.now suspension_names }
{
    if name == b"id_index".as_slice() {
        Some(PvUse::IdIndex)
    } else if name == b"id_label".as_slice() {
        Some(PvUse::IdLabel)
    } else {
        None
    }
}

/// How a variable of this name uses a table.
pub fn table_use(name: &[u8]) -> Option<TableUse>
    ensures { result ≡ named name.now table_names }
{
    if name == b"sht".as_slice() {
        Some(TableUse::Item)
    } else if name == b"shtex".as_slice() {
        Some(TableUse::Seconds)
    } else if name == b"shtinc".as_slice() {
        Some(TableUse::Increment)
    } else if name == b"shtdec".as_slice() {
        Some(TableUse::Decrement)
    } else {
        None
    }
}

/// The transformation of this name.
pub fn transformation(name: &[u8]) -> Option<Transformation>
    ensures { result ≡ named name.now transformation_names }
{
    if name == b"s.len".as_slice() {
        Some(Transformation::Length)
    } else if name == b"s.int".as_slice() {
        Some(Transformation::Number)
    } else if name == b"uri.user".as_slice() {
        Some(Transformation::UriUser)
    } else if name == b"uri.host".as_slice() {
        Some(Transformation::UriHost)
    } else {
        None
    }
}
