//! The program over files of the tests' own, and the two objects by themselves.
use crate::disk::Disk;
use crate::run;
use crate::terminal::Terminal;
use outside_ports::{Console, FileFault, Files, MemConsole, PrintEnd};
use std::alloc::{AllocError as NoMemory, Global};
use std::cell::RefCell;
use std::fmt::Display;
use std::process::ExitCode;
use std::test::Fail;
use std::{fs, io};

const SCRIPT: &str = "request_route { sl_send_reply(\"200\", \"OK\"); }\n";

const SCENARIO: &str = "in 0 192.0.2.1:5062
|OPTIONS sip:a@127.0.0.1 SIP/2.0
|Via: SIP/2.0/UDP 192.0.2.1:5062;rport;branch=z9hG4bK1
|From: <sip:u@example.com>;tag=1
|To: <sip:a@127.0.0.1>
|Call-ID: c1
|CSeq: 1 OPTIONS
|Max-Forwards: 70
|Content-Length: 0
|
end 0
";

const TRACE: &str = "out 0 192.0.2.1:5062
|SIP/2.0 200 OK
|Via: SIP/2.0/UDP 192.0.2.1:5062;rport=5062;branch=z9hG4bK1;received=192.0.2.1
|From: <sip:u@example.com>;tag=1
|To: <sip:a@127.0.0.1>;tag=rt1
|Call-ID: c1
|CSeq: 1 OPTIONS
|Content-Length: 0
|
end 0 live 0
";

const USAGE: &str =
    "usage: sipscript check FILE, sim FILE SCENARIO, load N, serve FILE [options]\n";

/// Whether the program ends with this status and has printed this text, over these files.
fn ends<F: Files>(
    alloc: Global,
    files: &mut F,
    words: &[&str],
    status: u8,
    printed: &str,
) -> Result<bool, NoMemory> {
    let mut list = Vec::new(alloc);
    for word in words {
        list.push(String::from_str(alloc, word)?)?;
    }
    let mut console = MemConsole::new(Vec::new(alloc));
    let code = run(alloc, Ok(list), files, &mut console);
    Ok(code == ExitCode::from(status) && console.printed() == printed.as_bytes())
}

#[test]
fn the_program_over_files(rt: HostRuntime) -> Result<(), Fail> {
    let script = "sipscript_test_script";
    let scenario = "sipscript_test_scenario";
    fs::write(&rt, script, SCRIPT)?;
    fs::write(&rt, scenario, SCENARIO)?;
    let cases: [(&[&str], u8, &str); 6] = [
        (&["sim", script, scenario], 0, TRACE),
        (&["check", script], 0, "accepted\n"),
        (&["sim", script], 1, USAGE),
        (&["check", scenario], 2, "refused 1 at 8..9\n"),
        (&["sim", script, script], 3, "scenario line 1\n"),
        (
            &["sim", script, "sipscript_no_such_file"],
            4,
            "cannot read sipscript_no_such_file\n",
        ),
    ];
    let mut disk = Disk::new(&rt);
    for (words, status, printed) in cases {
        assert!(rt;
            ends(rt.alloc(), &mut disk, words, status, printed)?,
            "status {status}"
        );
    }
    fs::remove_file(&rt, script)?;
    fs::remove_file(&rt, scenario)?;
    Ok(())
}

#[test]
fn no_memory_for_the_words(rt: HostRuntime) {
    let mut console = MemConsole::new(Vec::new(rt.alloc()));
    let code = run(rt.alloc(), Err(NoMemory), &mut Disk::new(&rt), &mut console);
    assert!(rt; code == ExitCode::from(8));
    assert!(rt; console.printed() == b"out of memory\n".as_slice());
}

/// The file is longer than two of the blocks in which it is read, and no two of its blocks are alike.
#[test]
fn a_file_is_read_whole_up_to_its_limit(rt: HostRuntime) -> Result<(), Fail> {
    let name = "sipscript_test_file";
    let mut text = Vec::new(rt.alloc());
    for number in 0..9_096usize {
        text.push((number % 251) as u8)?;
    }
    fs::write(&rt, name, text.as_slice())?;
    let mut disk = Disk::new(&rt);
    let whole = disk.read(rt.alloc(), name, 9_096);
    assert!(rt; whole.is_ok_and(|bytes| bytes.as_slice() == text.as_slice()));
    let long = disk.read(rt.alloc(), name, 9_095);
    assert!(rt; matches!(long, Err(FileFault::TooLong)));
    let unknown = disk.read(rt.alloc(), "sipscript_no_such_file", 9_096);
    assert!(rt; matches!(unknown, Err(FileFault::Failed)));
    fs::remove_file(&rt, name)?;
    Ok(())
}

/// A runtime that keeps what is written, where it doesn't fail.
#[derive(Drop)]
struct Paper {
    written: RefCell<Vec<u8>>,
    fails: bool,
}

impl Print for Paper {
    fn print<D: Display + Drop>(&self, _value: D) -> io::Result<()> {
        Err(io::Error::from(io::ErrorKind::Unsupported))
    }

    fn println<D: Display + Drop>(&self, _value: D) -> io::Result<()> {
        Err(io::Error::from(io::ErrorKind::Unsupported))
    }

    fn write_all(&self, bytes: &[u8]) -> io::Result<()> {
        if self.fails {
            return Err(io::Error::from(io::ErrorKind::BrokenPipe));
        }
        if let Ok(mut written) = self.written.try_borrow_mut() {
            written.extend_from_slice(bytes)?;
        }
        Ok(())
    }
}

#[test]
fn a_text_is_printed_whole(rt: HostRuntime) {
    for (fails, end, text) in [
        (false, PrintEnd::Printed, "two\nlines\n"),
        (true, PrintEnd::Failed, ""),
    ] {
        let paper = Paper {
            written: RefCell::new(Vec::new(rt.alloc())),
            fails,
        };
        let answer = Terminal::new(&paper).print(b"two\nlines\n");
        assert!(rt; answer == end);
        let Paper { written, .. } = paper;
        assert!(rt; written.into_inner().as_slice() == text.as_bytes());
    }
}
