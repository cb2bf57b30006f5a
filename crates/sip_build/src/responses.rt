//! The responses that the proxy makes (RFC 3261, section 8.2.6).
ghost use Rattle.std.specs.Prelude.{◌≡◌, ◌≤◌, ◌++◌, IfSome, codes, length};
ghost use Rattle.std.specs.Fmt.{decimal};
ghost use Rattle.sip_scan.specs.declared.field.Kind.TheVariants as kind;
ghost use Rattle.sip_msg.specs.Fields.{first};
ghost use Rattle.sip_msg.specs.Basis.{basis_of};
ghost use Rattle.sip_msg.specs.Table.{Reads};
ghost use Rattle.sip_msg.specs.Values.{name_addr_of};
ghost use Rattle.sip_build.specs.Reply.{without_cookie, gives_tag, reply_tag, reply_to_field, reply_text, basis_reply_text};
ghost use Rattle.msg_edits.specs.Writing.{IsWritten};
ghost use Rattle.sip_build.specs.Writing.{FieldsLie, EndsIn, RequestLies, response_to, to_text};

use crate::addresses::add_number;
use crate::fields::{field_text, first_field};
use crate::joined::{Joined, Taken};
use crate::stamp::Stamp;
use arrayvec::ArrayString;
use msg_edits::TooLong;
use outside_ports::Addr;
use sip_fields::{NameAddr, Via, read_name_addr};
use sip_msg::{Basis, Message};
use sip_scan::{HeaderSpan, Kind};

/// What a response is made of: a request, its fields, its top Via value, and the value of To where it reads.
#[derive(Clone, Copy)]
struct Request<'a> {
    b: &'a [u8],
    fields: &'a [HeaderSpan],
    via: &'a Via,
    to: Option<NameAddr>,
}

/// The field To of a response: up to the end of its value, a tag, and the rest.
#[derive(Clone, Copy)]
struct ToField<'a> {
    front: &'a [u8],
    /// `;tag=rt`, or nothing where no tag is given.
    mark: &'a [u8],
    /// The top branch without its cookie.
    token: &'a [u8],
    back: &'a [u8],
}

/// Writes the response with this code and reason to the request `m`, which came from `from`: the status line; all Via
/// fields of the stamped request; From; To, with a tag where it has none and the code isn't 100; Call-ID; CSeq;
/// `Content-Length: 0`; the empty line.
#[tactic(auto, unfolding(crate::specs::Reply::reply_text, crate::specs::Writing::response_to), using(crate::proofs::Readings::fields_lie, crate::proofs::Readings::branch_within, crate::proofs::Readings::to_ends))]
pub fn reply(
    b: &[u8],
    m: &Message,
    from: Addr,
    code: u16,
    reason: &[u8],
    out: &mut [u8],
) -> Result<usize, TooLong>
    requires { Reads b.now m.now }
    ensures { IsWritten (reply_text b.now m.now from code reason.now) out.old out.new result }
{
    let request = Request {
        b,
        fields: &m.head.fields,
        via: &m.via,
        to: Some(m.to),
    };
    request.write(from, code, reason, out)
}

/// Writes the response with this code and reason to a malformed request, which came from `from`: the same, with those
/// of the fields that are present. Of From, To, Call-ID and CSeq the first field of each is written. To is given a
/// tag only where it reads and has none.
#[tactic(auto, unfolding(crate::specs::Reply::basis_reply_text, crate::specs::Writing::response_to), using(crate::proofs::Readings::basis_fields_lie, crate::proofs::Readings::basis_branch_within))]
pub fn basis_reply(
    b: &[u8],
    basis: &Basis,
    from: Addr,
    code: u16,
    reason: &[u8],
    out: &mut [u8],
) -> Result<usize, TooLong>
    requires { basis_of b.now ≡ Some basis.now }
    ensures { IsWritten (basis_reply_text b.now basis.now from code reason.now) out.old out.new result }
{
    let request = Request {
        b,
        fields: &basis.head.fields,
        via: &basis.via,
        to: read_to(b, &basis.head.fields),
    };
    request.write(from, code, reason, out)
}

impl<'a> Request<'a> {
    /// Writes the response.
    fn write(&self, from: Addr, code: u16, reason: &[u8], out: &mut [u8]) -> Result<usize, TooLong>
        requires { RequestLies self.now }
        ensures { IsWritten (response_to self.now from code reason.now) out.old out.new result }
    {
        let status = status_front(code);
        let stamp = Stamp::of(self.via, from);
        let to = self.to_field(code);
        let joined = Joined {
            front: &[status.as_str().as_bytes(), reason, b"\r\n"],
            b: self.b,
            fields: self.fields,
            taken: Taken::Vias,
            changes: stamp.changes(),
            back: &[
                field_text(self.b, self.fields, Kind::From),
                to.front,
                to.mark,
                to.token,
                to.back,
                field_text(self.b, self.fields, Kind::CallId),
                field_text(self.b, self.fields, Kind::CSeq),
                b"Content-Length: 0\r\n\r\n",
            ],
        };
        joined.fit(out)
    }

    /// The field To, with a tag where it reads and has none and the code isn't 100.
    fn to_field(&self, code: u16) -> ToField<'a>
        requires { RequestLies self.now }
        ensures { to_text result ≡ reply_to_field self.now.b.now (first kind.To self.now.fields.now) self.now.to code (reply_tag self.now.b.now self.now.via.now.branch) }
    {
        let Some(field) = first_field(self.b, self.fields, Kind::To) else {
            return whole_field(&[]);
        };
        match self.to {
            Some(to) if gives_tag(code, to) => ToField {
                front: &self.b[field.whole.from..to.whole.to],
                mark: b";tag=rt",
                token: self.token(),
                back: &self.b[to.whole.to..field.whole.to],
            },
            _ => whole_field(&self.b[field.whole.from..field.whole.to]),
        }
    }

    /// The top branch without its cookie.
    fn token(&self) -> &'a [u8]
        requires { RequestLies self.now }
        ensures { codes "rt" ++ result.now ≡ reply_tag self.now.b.now self.now.via.now.branch }
    {
        match self.via.branch {
            Some(branch) => without_cookie(&self.b[branch.from..branch.to]),
            None => &[],
        }
    }
}

/// A field To that is given no tag.
fn whole_field(bytes: &[u8]) -> ToField<'_>
    ensures { to_text result ≡ bytes.now }
{
    ToField {
        front: bytes,
        mark: &[],
        token: &[],
        back: &[],
    }
}

/// Whether the response gives a tag to this To.
fn gives_tag(code: u16, to: NameAddr) -> bool
    ensures { result ≡ gives_tag code to }
{
    code != 100 && to.tag.is_none()
}

/// A branch without the cookie with which it may begin (RFC 3261, section 8.1.1.7).
pub fn without_cookie(branch: &[u8]) -> &[u8]
    ensures { result.now ≡ without_cookie branch.now }
{
    if branch.starts_with(b"z9hG4bK") {
        &branch[7..]
    } else {
        branch
    }
}

/// The value of To, where it reads and is the only one of its field.
#[tactic(auto, unfolding(sip_msg::specs::Values::name_addr_of))]
fn read_to(b: &[u8], fields: &[HeaderSpan]) -> Option<NameAddr>
    requires { FieldsLie b.now fields.now }
    ensures value { result ≡ name_addr_of kind.To b.now fields.now }
    ensures lies { IfSome result (λ n. IfSome (first kind.To fields.now) (EndsIn n)) }
{
    let field = first_field(b, fields, Kind::To)?;
    let value = read_name_addr(b, field.value).ok()?;
    if value.next.is_some() {
        return None;
    }
    Some(value)
}

/// The front of a status line, up to the reason.
fn status_front(code: u16) -> ArrayString<14>
    ensures { result.bytes ≡ codes "SIP/2.0 " ++ (decimal code ++ codes " ") }
{
    let mut text = ArrayString::new();
    text.push_str("SIP/2.0 ");
    add_number(&mut text, code);
    text.push_str(" ");
    text
}
