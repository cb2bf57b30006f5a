//! The objects in memory, call by call, with what they return worked out by hand.
ghost use Rattle.std.specs.Prelude.{◌≡◌, ◌≤◌, length, IfOk};

use crate::{
    Addr, Arrival, Bytes, Console, FileFault, Files, MemConsole, MemFiles, MemPort, Port, PrintEnd,
    Recv, SendEnd,
};
use std::alloc::{AllocError, Global};
use std::process::Abort;
use std::test::Fail;

/// The room that a port asks for, in bytes.
const ROOM: usize = 65_536;

const ALICE: Addr = Addr {
    ip: 0xC000_0201,
    port: 5060,
};

const BOB: Addr = Addr {
    ip: 0xC633_6407,
    port: 40_000,
};

fn arrival(alloc: Global, at: u64, from: Addr, text: &[u8]) -> Result<Arrival, AllocError>
    requires { length text.now ≤ 65507 }
    ensures moment { IfOk result (λ a. a.at ≡ at) }
    ensures short { IfOk result (λ a. length a.bytes ≤ 65507) }
{
    let bytes = Bytes::of(Vec::from_slice(alloc, text)?);
    Ok(Arrival { at, from, bytes })
}

/// A call of `recv`: the moment asked for, what it returns, and the clock and the front of the buffer after it.
type RecvCase = (u64, Recv, u64, &'static [u8]);

fn got(len: usize, from: Addr) -> Recv {
    Recv::Got { len, from }
}

/// The port returns what the cases say, one after another, and each call was recorded.
fn receives(rt: &impl Abort, mut port: MemPort, cases: &[RecvCase]) {
    let mut buf = [b'.'; ROOM];
    for (until, wanted, clock, front) in cases {
        let got = port.recv(&mut buf, *until);
        assert_eq!(rt; got, *wanted, "up to {until}");
        assert_eq!(rt; port.now(), *clock, "up to {until}");
        assert!(rt; buf.starts_with(front), "up to {until}");
        assert!(rt; !port.out_of_memory());
    }
}

#[test]
fn arrivals_are_got_at_their_moments(rt: HostRuntime) -> Result<(), Fail> {
    let alloc = rt.alloc();
    let arrivals = [
        arrival(alloc, 10, ALICE, b"first")?,
        arrival(alloc, 10, BOB, b"")?,
        arrival(alloc, 25, ALICE, b"ab")?,
    ];
    let arrivals = Vec::from_array(alloc, arrivals)?;
    let port = MemPort::new(arrivals, 40, Vec::new(alloc), Vec::new(alloc));
    let cases: [RecvCase; 11] = [
        (0, Recv::Idle, 0, b"......"),
        (9, Recv::Idle, 9, b"......"),
        (10, got(5, ALICE), 10, b"first."),
        // The moment asked for is past: the call waits up to the clock, and gets what came by then.
        (3, got(0, BOB), 10, b"first."),
        (12, Recv::Idle, 12, b"first."),
        // The clock never goes back.
        (5, Recv::Idle, 12, b"first."),
        // The clock stands at the arrival, before the moment asked for.
        (100, got(2, ALICE), 25, b"abrst."),
        (39, Recv::Idle, 39, b"abrst."),
        (40, Recv::Closed, 40, b"abrst."),
        (0, Recv::Closed, 40, b"abrst."),
        (u64::MAX, Recv::Closed, 40, b"abrst."),
    ];
    receives(&rt, port, &cases);
    Ok(())
}

#[test]
fn the_last_moment_comes(rt: HostRuntime) -> Result<(), Fail> {
    let alloc = rt.alloc();
    let arrivals = Vec::from_array(alloc, [arrival(alloc, u64::MAX, BOB, b"y")?])?;
    let port = MemPort::new(arrivals, u64::MAX, Vec::new(alloc), Vec::new(alloc));
    let cases: [RecvCase; 3] = [
        (u64::MAX - 1, Recv::Idle, u64::MAX - 1, b"."),
        (u64::MAX, got(1, BOB), u64::MAX, b"y"),
        (0, Recv::Closed, u64::MAX, b"y"),
    ];
    receives(&rt, port, &cases);
    Ok(())
}

/// A call that is listed moves no clock, takes no arrival and leaves the buffer. Calls are numbered from 1.
#[test]
fn listed_calls_of_recv_fail(rt: HostRuntime) -> Result<(), Fail> {
    let alloc = rt.alloc();
    let arrivals = Vec::from_array(alloc, [arrival(alloc, 5, BOB, b"x")?])?;
    let fail = Vec::from_slice(alloc, &[0, 4, 2])?;
    let port = MemPort::new(arrivals, 5, fail, Vec::new(alloc));
    let cases: [RecvCase; 5] = [
        (4, Recv::Idle, 4, b"."),
        (9, Recv::Failed, 4, b"."),
        (9, got(1, BOB), 5, b"x"),
        (9, Recv::Failed, 5, b"x"),
        (9, Recv::Closed, 5, b"x"),
    ];
    receives(&rt, port, &cases);
    Ok(())
}

/// 65,507 bytes, the most that UDP over IPv4 carries, are got whole.
#[test]
fn the_longest_datagram_is_got(rt: HostRuntime) -> Result<(), Fail> {
    let alloc = rt.alloc();
    let text = [b'z'; 65_507];
    let arrivals = Vec::from_array(alloc, [arrival(alloc, 0, ALICE, &text)?])?;
    let mut port = MemPort::new(arrivals, 0, Vec::new(alloc), Vec::new(alloc));
    let mut buf = [b'.'; ROOM];
    let got_end = port.recv(&mut buf, 0);
    assert_eq!(rt; got_end, got(65_507, ALICE));
    assert!(rt; buf.starts_with(&text));
    assert_eq!(rt; buf[65_507], b'.');
    Ok(())
}

/// The calls of `send` are numbered apart from those of `recv`. While `out_of_memory` is false, what was sent is listed.
#[test]
fn listed_calls_of_send_fail(rt: HostRuntime) -> Result<(), Fail> {
    let alloc = rt.alloc();
    let fail_recv = Vec::from_slice(alloc, &[1])?;
    let fail_send = Vec::from_slice(alloc, &[0, 3, 2])?;
    let mut port = MemPort::new(Vec::new(alloc), 7, fail_recv, fail_send);
    let mut buf = [b'.'; ROOM];
    let first = port.recv(&mut buf, 7);
    assert_eq!(rt; first, Recv::Failed);
    let cases: [(Addr, &'static [u8], SendEnd); 5] = [
        (ALICE, b"one", SendEnd::Sent),
        (BOB, b"two", SendEnd::Failed),
        (BOB, b"two", SendEnd::Failed),
        (BOB, b"two", SendEnd::Sent),
        (ALICE, b"", SendEnd::Sent),
    ];
    for (at, (to, text, wanted)) in cases.iter().enumerate() {
        let end = port.send(*to, text);
        assert_eq!(rt; end, *wanted, "call {at}");
        assert!(rt; !port.out_of_memory(), "call {at}");
    }
    assert_eq!(rt; port.now(), 0);
    let last = port.recv(&mut buf, 7);
    assert_eq!(rt; last, Recv::Closed);
    Ok(())
}

/// A call of `read`: the name, the limit, and what it returns.
type ReadCase = (&'static str, usize, Result<&'static [u8], FileFault>);

fn file(alloc: Global, name: &str, text: &[u8]) -> Result<(String, Vec<u8>), AllocError> {
    Ok((
        String::from_str(alloc, name)?,
        Vec::from_slice(alloc, text)?,
    ))
}

fn reads(rt: &impl Abort, alloc: Global, files: &mut MemFiles, (name, limit, want): ReadCase) {
    match (files.read(alloc, name, limit), want) {
        (Ok(bytes), Ok(text)) => assert!(rt; bytes.as_slice() == text, "{name} {limit}"),
        (Err(fault), Err(other)) => assert_eq!(rt; fault, other, "{name} {limit}"),
        (Ok(_), Err(_)) => assert!(rt; false, "{name} {limit} is read"),
        (Err(fault), Ok(_)) => assert!(rt; false, "{name} {limit}: {fault:?}"),
    }
}

#[test]
fn files_are_read_whole(rt: HostRuntime) -> Result<(), Fail> {
    let alloc = rt.alloc();
    let list = [
        file(alloc, "a", b"abcd")?,
        file(alloc, "a", b"another")?,
        file(alloc, "b", b"")?,
    ];
    let list = Vec::from_array(alloc, list)?;
    let fail = Vec::from_slice(alloc, &[0, 9, 8])?;
    let mut files = MemFiles::new(list, fail);
    let cases: [ReadCase; 10] = [
        ("a", 4, Ok(b"abcd")),
        ("a", 3, Err(FileFault::TooLong)),
        ("a", usize::MAX, Ok(b"abcd")),
        ("b", 0, Ok(b"")),
        // Unknown names, whose case counts.
        ("c", 9, Err(FileFault::Failed)),
        ("A", 9, Err(FileFault::Failed)),
        ("", 9, Err(FileFault::Failed)),
        // Listed, whatever the limit.
        ("a", 9, Err(FileFault::Failed)),
        ("a", 0, Err(FileFault::Failed)),
        ("a", 9, Ok(b"abcd")),
    ];
    for case in cases {
        reads(&rt, alloc, &mut files, case);
    }
    Ok(())
}

/// A call of `print`: the bytes, what it returns, and all that was printed by then.
type PrintCase = (&'static [u8], PrintEnd, &'static [u8]);

fn prints(rt: &impl Abort, console: &mut MemConsole, (text, wanted, printed): PrintCase) {
    let end = console.print(text);
    assert_eq!(rt; end, wanted, "{text:?}");
    assert!(rt; console.printed() == printed, "{text:?}");
}

#[test]
fn a_console_keeps_what_is_printed(rt: HostRuntime) -> Result<(), Fail> {
    let alloc = rt.alloc();
    let mut console = MemConsole::new(Vec::from_slice(alloc, &[0, 4, 2])?);
    assert!(rt; console.printed().is_empty());
    let cases: [PrintCase; 5] = [
        (b"one", PrintEnd::Printed, b"one"),
        (b"two", PrintEnd::Failed, b"one"),
        (b"", PrintEnd::Printed, b"one"),
        (b"\xFF", PrintEnd::Failed, b"one"),
        (b"\xFF\x00", PrintEnd::Printed, b"one\xFF\x00"),
    ];
    for case in cases {
        prints(&rt, &mut console, case);
    }
    Ok(())
}
