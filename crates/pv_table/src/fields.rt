//! Header fields by their names (RFC 3261, section 7.3).
ghost use Rattle.std.specs.List.{find};
ghost use Rattle.std.specs.Option.{option_copied};
ghost use Rattle.std.specs.Prelude.{◌≡◌, ◌≤◌, All, length, IfSome};
ghost use Rattle.sip_msg.specs.Table.{Reads};
ghost use Rattle.sip_scan.specs.Field.{IsField};
ghost use Rattle.pv_table.specs.Fields.{is_lws_byte, is_field_named, end_trimmed, trimmed, field_value};

use crate::uri_parts::bytes_at;
use sip_msg::Message;
use sip_scan::{HeaderSpan, full_name};
use sip_words::lws_end;

/// Whether this is a byte of LWS: SP, HTAB, CR or LF.
fn is_lws_byte(b: u8) -> bool
    ensures { result ≡ is_lws_byte b }
{
    b == b' ' || b == b'\t' || b == b'\r' || b == b'\n'
}

/// The text without the LWS at its end.
fn end_trimmed(text: &[u8]) -> &[u8]
    ensures { result.now ≡ end_trimmed text.now }
{
    let mut end = text.len();
    while 0 < end && is_lws_byte(text[end - 1]) {
        end -= 1;
    }
    &text[..end]
}

/// The text without the LWS round it.
fn trimmed(text: &[u8]) -> &[u8]
    ensures { result.now ≡ trimmed text.now }
{
    end_trimmed(&text[lws_end(text, 0)..])
}

/// Whether the field has this name, in its full or compact form.
pub fn is_field_named(b: &[u8], name: &[u8], field: &HeaderSpan) -> bool
    requires from { field.now.name.from ≤ field.now.name.to }
    requires to { field.now.name.to ≤ length b.now }
    ensures { result ≡ is_field_named b.now name.now field.now }
{
    full_name(&b[field.name.from..field.name.to]).eq_ignore_ascii_case(full_name(name))
}

/// The first of these fields that has the name.
fn first_named(b: &[u8], fields: &[HeaderSpan], name: &[u8]) -> Option<HeaderSpan>
    requires { All (IsField b.now) fields.now }
    ensures value { result ≡ find (is_field_named b.now name.now) fields.now }
    ensures is { IfSome result (IsField b.now) }
{
    for field in fields {
        if is_field_named(b, name, field) {
            return Some(*field);
        }
    }
    None
}

/// The value of the first field of a name, without the LWS round it.
pub fn field_value<'a>(b: &'a [u8], m: &Message, name: &[u8]) -> Option<&'a [u8]>
    requires { Reads b.now m.now }
    ensures { option_copied result ≡ field_value b.now m.now name.now }
{
    let field = first_named(b, m.head.fields.as_slice(), name)?;
    Some(trimmed(bytes_at(b, field.value)))
}
