//! The program `sipscript`: the real files and the terminal, and the call of the top.
#![tactic(auto)]

mod disk;
mod terminal;

ghost use Rattle.std.specs.Prelude.{IfOk, IfErr};
ghost use Rattle.std.specs.Process.{exit_status};
ghost use Rattle.proxy_top.specs.Commands.{words_of};
ghost use Rattle.proxy_top.specs.Endings.{IsEnd, IsPrinted, memory_line};

use crate::disk::Disk;
use crate::terminal::Terminal;
use outside_ports::{Console, Files};
use proxy_top::{report_no_memory, simulate};
use std::alloc::{AllocError as NoMemory, Global};
use std::process::ExitCode;
use std::{env, io};

/// The words of the command line, without the program's name. Where one isn't UTF-8 there are none: no words are in no
/// form either.
fn words(rt: &HostRuntime) -> Result<Vec<String>, NoMemory> {
    let mut words = Vec::new(rt.alloc());
    match env::args(rt) {
        Ok(all) => {
            for word in all.skip(1) {
                words.push(word)?;
            }
        }
        Err(error) if error.kind() == io::ErrorKind::OutOfMemory => return Err(NoMemory),
        Err(_) => {}
    }
    Ok(words)
}

/// Does what the words ask for. The status is that of `simulate`; without memory for the words it is that of no memory.
fn run<F: Files, C: Console>(
    alloc: Global,
    words: Result<Vec<String>, NoMemory>,
    files: &mut F,
    console: &mut C,
) -> ExitCode
    ensures ended { IfOk words (λ w. IsEnd (words_of w.items) (F.folder files.old) (F.faults files.old) (F.faults files.new)
        (C.printed console.old) (C.printed console.new) (C.faults console.old) (C.faults console.new)
        (C.shortages console.old) (C.shortages console.new) (exit_status result)) }
    ensures no_memory { IfErr words (λ _. IsPrinted 8 memory_line
        (C.printed console.old) (C.printed console.new) (C.faults console.old) (C.faults console.new)
        (C.shortages console.old) (C.shortages console.new) (exit_status result)) }
{
    let status = match words {
        Ok(words) => simulate(alloc, words.as_slice(), files, console),
        Err(NoMemory) => report_no_memory(console),
    };
    ExitCode::from(status)
}

fn main(rt: HostRuntime) -> ExitCode {
    let words = words(&rt);
    run(
        rt.alloc(),
        words,
        &mut Disk::new(&rt),
        &mut Terminal::new(&rt),
    )
}

#[cfg(test)]
mod tests;
