//! What an assignment makes of the facts of a run.
ghost use Rattle.std.specs.Option.{option_copied};
ghost use Rattle.std.specs.Prelude.{◌≡◌, IfOk, OnOk, OnErr, option_copied, unwrap_or};
ghost use Rattle.pv_table.specs.Writing.{uri_assigned, user_assigned, host_assigned, port_assigned, avps_assigned, text_in, assigned};

use crate::avps::{Avp, Avps};
use crate::facts::Facts;
use crate::uri_parts::{with_host, with_port, with_user};
use pv_values::{PvUse, Text, Val, as_int, into_text};
use sip_fields::is_absolute;
use std::alloc::{AllocError as NoMemory, Global};

/// The text of a value, where it isn't `$null`.
fn text_in(alloc: Global, value: Val) -> Result<Option<Text>, NoMemory>
    ensures { IfOk result (λ t. t ≡ text_in value) }
{
    match value {
        Val::Null => Ok(None),
        other => Ok(Some(into_text(alloc, other)?)),
    }
}

/// Puts the text in the place of the other, where there is one.
fn replace(uri: &mut Text, new: Option<Text>)
    ensures { uri.new ≡ unwrap_or new uri.old }
{
    if let Some(new) = new {
        *uri = new;
    }
}

/// `$ru = value`: does nothing without a scheme, a colon and one more byte.
fn assign_uri(alloc: Global, uri: &mut Text, value: Val) -> Result<(), NoMemory>
    ensures ok { OnOk result (uri.new ≡ uri_assigned uri.old value) }
    ensures err { OnErr result (uri.new ≡ uri.old) }
{
    let text = into_text(alloc, value)?;
    if is_absolute(text.bytes()) {
        *uri = text;
    }
    Ok(())
}

/// `$rU = value`: `$null` takes the user away, with its password.
fn assign_user(alloc: Global, uri: &mut Text, value: Val) -> Result<(), NoMemory>
    ensures ok { OnOk result (uri.new ≡ user_assigned uri.old value) }
    ensures err { OnErr result (uri.new ≡ uri.old) }
{
    let new = match text_in(alloc, value)? {
        Some(user) => with_user(alloc, uri.bytes(), Some(user.bytes()))?,
        None => with_user(alloc, uri.bytes(), None)?,
    };
    replace(uri, new);
    Ok(())
}

/// `$rd = value`: does nothing for `$null`.
fn assign_host(alloc: Global, uri: &mut Text, value: Val) -> Result<(), NoMemory>
    ensures ok { OnOk result (uri.new ≡ host_assigned uri.old value) }
    ensures err { OnErr result (uri.new ≡ uri.old) }
{
    if let Some(host) = text_in(alloc, value)? {
        let new = with_host(alloc, uri.bytes(), host.bytes())?;
        replace(uri, new);
    }
    Ok(())
}

/// `$rp = value`: does nothing where the value is no number from 1 to 65,535.
fn assign_port(alloc: Global, uri: &mut Text, value: &Val) -> Result<(), NoMemory>
    ensures ok { OnOk result (uri.new ≡ port_assigned uri.old value.now) }
    ensures err { OnErr result (uri.new ≡ uri.old) }
{
    if let Some(number) = as_int(value)
        && 1 <= number
        && number <= 65_535
    {
        let new = with_port(alloc, uri.bytes(), number as u16)?;
        replace(uri, new);
    }
    Ok(())
}

/// `$avp(NAME) = value`: a value goes before the others of its name, unless there are 256 AVPs; `$null` takes the newest
/// one away.
fn assign_avp(alloc: Global, avps: &mut Avps, name: &Text, value: Val) -> Result<(), NoMemory>
    ensures ok { OnOk result (avps.new ≡ avps_assigned name.now avps.old value) }
    ensures err { OnErr result (avps.new ≡ avps.old) }
{
    if let Val::Null = value {
        avps.remove_newest(name.bytes());
        return Ok(());
    }
    if avps.len() < Avps::LIMIT {
        let name = name.copy(alloc)?;
        avps.push(Avp { name, value })?;
    }
    Ok(())
}

/// Assigns a variable (the Kamailio core cookbook, "Pseudo-variables"). In a run that a block of a kind began which may not
/// assign it, nothing is done; nor where the row of the variable says so. Out of memory the facts stay as they were.
pub fn write_pv(alloc: Global, facts: &mut Facts, name: &PvUse, value: Val) -> Result<(), NoMemory>
    ensures ok { OnOk result (facts.new ≡ assigned facts.old name.now value) }
    ensures err { OnErr result (facts.new ≡ facts.old) }
{
    if !name.is_written_in(facts.kind) {
        return Ok(());
    }
    match name {
        PvUse::RequestUri => assign_uri(alloc, &mut facts.uri, value),
        PvUse::RequestUser => assign_user(alloc, &mut facts.uri, value),
        PvUse::RequestHost => assign_host(alloc, &mut facts.uri, value),
        PvUse::RequestPort => assign_port(alloc, &mut facts.uri, &value),
        PvUse::DestinationUri => {
            facts.destination = text_in(alloc, value)?;
            Ok(())
        }
        PvUse::Avp(name) => assign_avp(alloc, &mut facts.avps, name, value),
        _ => Ok(()),
    }
}
