//! Functions over methods, tags and header fields: their codes and their edits.

ghost use Rattle.sip_msg.specs.Table.{Reads};

use super::{LISTEN, edited, facts, facts_with_edits, message, request};
use crate::{
    TextRoom, append_hf, has_totag, is_method, is_present_hf, mf_process_maxfwd_header,
    record_route, remove_hf,
};
use pv_table::{BlockKind, Facts};
use sip_msg::Message;
use std::alloc::{AllocError, Global};
use std::process::Abort;
use std::test::Fail;

/// Max-Forwards of a request, and the code of `mf_process_maxfwd_header`.
const HOPS: [(&str, i64); 4] = [
    ("", 2),
    ("Max-Forwards: 0\r\n", -1),
    ("Max-Forwards: 1\r\n", 1),
    ("Max-Forwards: 255\r\n", 1),
];

#[test]
fn the_number_of_hops_is_looked_at_and_kept(rt: HostRuntime) -> Result<(), Fail> {
    let alloc = rt.alloc();
    for (field, code) in &HOPS {
        let b = request(alloc, field)?;
        let m = message(&rt, b.as_slice());
        let mut of_run = facts(alloc, BlockKind::Request, "sip:b@192.0.2.9")?;
        assert_eq!(rt; mf_process_maxfwd_header(&m, &mut of_run, 10), *code);
        assert_eq!(rt; of_run.absent_hops, Some(10));
    }
    Ok(())
}

/// Calls over an ACK, one after another.
struct Calls {
    /// How many edits are made before.
    made: usize,
    fields: &'static str,
    /// A call, and its code.
    calls: &'static [(&'static str, i64)],
    /// The fields after the edits.
    after: &'static str,
}

const CALLS: [Calls; 7] = [
    Calls {
        made: 0,
        fields: "X-A: 1\r\nSubject: s\r\nx-a: 2\r\n",
        calls: &[
            ("is_method ACK", 1),
            ("is_method INVITE|ACK", 1),
            ("is_method ACK|BYE", 1),
            ("is_method INVITE|BYE", -1),
            ("is_method ack", -1),
            ("is_method AC", -1),
            ("is_method ", -1),
            ("has_totag", 1),
            ("is_present_hf x-A", 1),
            ("is_present_hf s", 1),
            ("is_present_hf X", -1),
            ("remove_hf X-a", 1),
            ("remove_hf X-a", -1),
            ("is_present_hf X-A", 1),
            ("remove_hf X-B", -1),
            ("append_hf X: 1\r\n", 1),
            ("is_present_hf X", -1),
        ],
        after: "Subject: s\r\nX: 1\r\n",
    },
    // what is header fields, and what isn't
    Calls {
        made: 0,
        fields: "",
        calls: &[
            ("append_hf ", -1),
            ("append_hf X", -1),
            ("append_hf X: 1", -1),
            ("append_hf X: 1\n", -1),
            ("append_hf X: 1\r\nY", -1),
            ("append_hf X: 1\r\n\r\n", -1),
            ("append_hf \r\n", -1),
            ("append_hf  X: 1\r\n", -1),
            ("append_hf : 1\r\n", -1),
            ("append_hf X: 1\r\n 2\r\nY:\r\n", 1),
        ],
        after: "X: 1\r\n 2\r\nY:\r\n",
    },
    Calls {
        made: 0,
        fields: "Record-Route: <sip:192.0.2.3;lr>\r\n",
        calls: &[("record_route", 1), ("record_route", -1)],
        after: "Record-Route: <sip:127.0.0.1:5060;lr>\r\nRecord-Route: <sip:192.0.2.3;lr>\r\n",
    },
    // the 64th edit is made, and the 65th isn't
    Calls {
        made: 63,
        fields: "",
        calls: &[
            ("append_hf X: 1\r\n", 1),
            ("append_hf Y: 1\r\n", -2),
            ("append_hf Y", -1),
        ],
        after: "X: 1\r\n",
    },
    Calls {
        made: 64,
        fields: "X-A: 1\r\n",
        calls: &[
            ("record_route", -2),
            ("record_route", -1),
            ("remove_hf X-A", -2),
            ("remove_hf X-B", -1),
        ],
        after: "X-A: 1\r\n",
    },
    // two fields are cut where both cuts find room, and else none is
    Calls {
        made: 62,
        fields: "X-A: 1\r\nX-A: 2\r\n",
        calls: &[("remove_hf X-A", 1), ("append_hf X: 1\r\n", -2)],
        after: "",
    },
    Calls {
        made: 63,
        fields: "X-A: 1\r\nX-A: 2\r\n",
        calls: &[("remove_hf X-A", -2), ("append_hf X: 1\r\n", 1)],
        after: "X-A: 1\r\nX-A: 2\r\nX: 1\r\n",
    },
];

/// The code of a call by its words.
fn code_of(
    alloc: Global,
    b: &[u8],
    m: &Message,
    of_run: &mut Facts,
    room: &mut TextRoom,
    call: &str,
) -> Result<i64, AllocError>
    requires { Reads b.now m.now }
{
    if let Some(methods) = call.strip_prefix("is_method ") {
        Ok(is_method(b, m, methods.as_bytes()))
    } else if let Some(name) = call.strip_prefix("is_present_hf ") {
        Ok(is_present_hf(b, m, name.as_bytes()))
    } else if let Some(name) = call.strip_prefix("remove_hf ") {
        Ok(remove_hf(b, m, of_run, name.as_bytes()))
    } else if let Some(text) = call.strip_prefix("append_hf ") {
        append_hf(alloc, b, m, of_run, text.as_bytes(), room)
    } else if call == "record_route" {
        record_route(alloc, m, of_run, LISTEN)
    } else {
        Ok(has_totag(m))
    }
}

/// The calls answer so, and leave this of the fields.
fn answer_so(rt: &impl Abort, alloc: Global, calls: &Calls) -> Result<(), AllocError> {
    let text = request(alloc, calls.fields)?;
    let b = text.as_slice();
    let m = message(rt, b);
    let mut of_run = facts_with_edits(rt, alloc, "sip:b@192.0.2.9", calls.made)?;
    let mut room = TextRoom::new(alloc)?;
    for (call, code) in calls.calls {
        let found = code_of(alloc, b, &m, &mut of_run, &mut room, call)?;
        assert_eq!(rt; found, *code, "{call}");
    }
    let found = edited(rt, alloc, b, &of_run)?;
    assert_eq!(rt; found.as_slice(), request(alloc, calls.after)?.as_slice());
    Ok(())
}

#[test]
fn functions_over_fields_answer_and_edit(rt: HostRuntime) -> Result<(), Fail> {
    for calls in &CALLS {
        answer_so(&rt, rt.alloc(), calls)?;
    }
    Ok(())
}

const WITHOUT_TAG: &[u8] =
    b"BYE sip:b@192.0.2.9 SIP/2.0\r\nVia: SIP/2.0/UDP 192.0.2.1:5060;branch=z9hG4bK6a\r\nFrom: <sip:a@192.0.2.1>;tag=a\r\nTo: <sip:b@192.0.2.9>\r\nCall-ID: 6\r\nCSeq: 1 BYE\r\n\r\n";

#[test]
fn a_request_may_have_no_tag(rt: HostRuntime) {
    assert_eq!(rt; has_totag(&message(&rt, WITHOUT_TAG)), -1);
}

/// The start of a response, whose first Via field, the proxy's own, has 64 bytes.
const RESPONSE: &str =
    "SIP/2.0 200 OK\r\nVia: SIP/2.0/UDP 127.0.0.1:5060;branch=z9hG4bKrs00000001.0.0.0\r\nVia: SIP/2.0/UDP 192.0.2.1;branch=z9hG4bK4\r\nFrom: <sip:u@192.0.2.1>;tag=f\r\nTo: <sip:b@192.0.2.9>;tag=t\r\nCall-ID: 4\r\nCSeq: 1 BYE\r\n";

/// A field of so many bytes.
fn field(alloc: Global, bytes: usize) -> Result<Vec<u8>, AllocError> {
    let mut text = Vec::from_slice(alloc, b"X: ")?;
    for _ in 5..bytes {
        text.push(b'a')?;
    }
    text.extend_from_slice(b"\r\n")?;
    Ok(text)
}

/// A response of 8,192 bytes.
fn long_response(alloc: Global) -> Result<Vec<u8>, AllocError> {
    let mut text = Vec::from_slice(alloc, RESPONSE.as_bytes())?;
    let left = 8190 - RESPONSE.len();
    text.extend_from_slice(field(alloc, left)?.as_slice())?;
    text.extend_from_slice(b"\r\n")?;
    Ok(text)
}

/// The code of `append_hf` with a field of so many bytes in a block of this kind over the message, and how many edits are made.
fn appended(
    rt: &impl Abort,
    alloc: Global,
    b: &[u8],
    kind: BlockKind,
    bytes: usize,
) -> Result<(i64, usize), AllocError> {
    let m = message(rt, b);
    let mut of_run = facts(alloc, kind, "sip:b@192.0.2.9")?;
    let mut room = TextRoom::new(alloc)?;
    let more = field(alloc, bytes)?;
    let code = append_hf(alloc, b, &m, &mut of_run, more.as_slice(), &mut room)?;
    Ok((code, of_run.edits.len()))
}

/// The kind of the block, the bytes of the field that is put behind a response of 8,192 bytes, the code and how many edits
/// are made.
const LONG: [(BlockKind, usize, (i64, usize)); 3] = [
    (BlockKind::Reply, 64, (1, 1)),
    (BlockKind::Reply, 65, (-3, 0)),
    (BlockKind::Request, 65, (1, 1)),
];

#[test]
fn a_response_stays_within_8192_bytes(rt: HostRuntime) -> Result<(), Fail> {
    let alloc = rt.alloc();
    let text = long_response(alloc)?;
    assert_eq!(rt; text.len(), 8192);
    for (kind, bytes, wanted) in &LONG {
        let found = appended(&rt, alloc, text.as_slice(), *kind, *bytes)?;
        assert_eq!(rt; found, *wanted, "{kind:?}, {bytes} bytes");
    }
    Ok(())
}
