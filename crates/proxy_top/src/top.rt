//! The top call.

ghost use Rattle.std.specs.Prelude.{◌≡◌, ◌≤◌, ◌⊎◌, [], ℕ, List, IfOk, IfErr};
ghost use Rattle.outside_ports.specs.Counts.{Rises};
ghost use Rattle.outside_ports.specs.Told.{Grows};
ghost use Rattle.pv_values.specs.declared.refusal.Place.{Place};
ghost use Rattle.cfg_tree.specs.declared.refusal_kind.RefusalKind.TheVariants.{TooLarge};
ghost use Rattle.cfg_tree.specs.RefusalKinds.{refusal_number};
ghost use Rattle.sim_text.specs.Scenario.{contents_of};
ghost use Rattle.solo_run.specs.Solo.{solo_trace};
ghost use Rattle.proxy_top.specs.Commands.{words_of, sim_words, IsNoCommand};
ghost use Rattle.proxy_top.specs.Endings.{
  IsEnding,
  IsDone,
  IsRefusedByCommand,
  IsWrongLine,
  IsUnread,
  IsPrinted,
  IsEnd,
  IsStatus,
  Gives,
  IsToAccept,
  IsToRefuse,
  IsTooLong,
  PrintsRefusal,
  PrintsMemory,
  NamesScript,
  ReadsScript,
  IsMalformedScenario,
  IsReady,
  place,
  status_of,
  text_of,
  usage_line,
  refused_line,
  wrong_line,
  unread_line,
  memory_line,
};

use crate::accept::{a_text_is_refused_in_one_way, accepted, no_text_is_accepted_and_refused};
use crate::command::{Command, read_command};
use cfg_compile::compile;
use cfg_tree::ClosedScript;
use numerals::push_number;
use outside_ports::{Console, FileFault, Files, PrintEnd};
use pv_values::{Place, ScriptFault};
use sim_text::{Scenario, ScenarioFault, read_scenario};
use solo_run::solo_trace;
use std::alloc::{AllocError as NoMemory, Global};

/// The longest script, in bytes.
const LONGEST_SCRIPT: usize = 1 << 20;

/// The longest scenario, in bytes.
const LONGEST_SCENARIO: usize = 4 << 20;

/// Where a script that is too long is refused: its length isn't known.
const PAST_LONGEST: Place = Place {
    from: LONGEST_SCRIPT,
    to: LONGEST_SCRIPT + 1,
};

/// The number of the kind `TooLarge`, of a file above 1 MiB.
const TOO_LARGE: u8 = 13;

/// How a command ended.
#[derive(Drop)]
enum Ending<'a> {
    /// `check`: the script is accepted.
    Accepted,
    /// `sim`: the trace of the run.
    Ran(Vec<u8>),
    /// The words are no command.
    Usage,
    /// The script is refused.
    Refused { kind: u8, at: Place },
    /// The first line of the scenario that is malformed; 0 where the scenario is too long.
    WrongLine(u64),
    /// The file of this name can't be read.
    Unread(&'a str),
}

/// Runs the command that the words name, prints what it prints in one call, and answers its status.
///
/// | status | comes | printed line |
/// |-|-|-|
/// | 0 | the command is done | `accepted` of `check`, the trace of `sim` |
/// | 1 | the words are malformed | `usage: ..` |
/// | 2 | the script isn't accepted | `refused KIND at FROM..TO` |
/// | 3 | that line of the scenario is the first that is malformed | `scenario line N` |
/// | 4 | a file couldn't be read | `cannot read NAME` |
/// | 5 | the console failed, whatever the command came to | |
/// | 8 | it was out of memory | `out of memory`, or nothing where the console was out of memory too |
///
/// The scenario is read once the script is accepted. So status 4 comes with the scenario's name after a script that is
/// accepted alone, and with no other name than that of a file whose count of faults rose.
/// A script of more than 1,048,576 bytes is refused as TooLarge at 1048576..1048577. Of a Syntax no clause says the place.
#[tactic(auto, using(crate::proofs::Statuses::done, crate::proofs::Statuses::usage, crate::proofs::Statuses::refused, crate::proofs::Statuses::in_wrong_line, crate::proofs::Statuses::unread, crate::proofs::Statuses::failed, crate::proofs::Statuses::memory, crate::proofs::Statuses::known, crate::proofs::Statuses::no_command, crate::proofs::Causes::too_long_line))]
pub fn simulate<F: Files, C: Console>(
    alloc: Global,
    words: &[String],
    files: &mut F,
    console: &mut C,
) -> u8
    ensures done { result ≡ 0 → (text : List ℕ) × IsDone (words_of words.now) (F.folder files.old) text
        × Grows (C.printed console.old) (C.printed console.new) text }
    ensures usage { result ≡ 1 → IsNoCommand (words_of words.now)
        × Grows (C.printed console.old) (C.printed console.new) usage_line }
    ensures refused { result ≡ 2 → (kind : ℕ) × (at : Place) × IsRefusedByCommand (words_of words.now) (F.folder files.old) kind at
        × Grows (C.printed console.old) (C.printed console.new) (refused_line kind at) }
    ensures wrong_line { result ≡ 3 → (line : ℕ) × IsWrongLine (words_of words.now) (F.folder files.old) line
        × Grows (C.printed console.old) (C.printed console.new) (wrong_line line) }
    ensures unread { result ≡ 4 → (name : List ℕ)
        × IsUnread (words_of words.now) (F.folder files.old) (F.faults files.old) (F.faults files.new) name
        × Grows (C.printed console.old) (C.printed console.new) (unread_line name) }
    ensures failed { result ≡ 5 → Rises (C.faults console.old) (C.faults console.new)
        × Grows (C.printed console.old) (C.printed console.new) [] }
    ensures memory { result ≡ 8 → PrintsMemory (C.printed console.old) (C.printed console.new)
        (C.shortages console.old) (C.shortages console.new) }
    ensures known { IsStatus result }

    // All of the clauses above in one.
    ensures ended { IsEnd (words_of words.now) (F.folder files.old) (F.faults files.old) (F.faults files.new)
        (C.printed console.old) (C.printed console.new) (C.faults console.old) (C.faults console.new)
        (C.shortages console.old) (C.shortages console.new) result }

    // Where no count of faults rose, words and files that are told leave one status, but for want of memory.
    ensures no_command { IsNoCommand (words_of words.now)
        → Gives 1 (F.faults files.old) (F.faults files.new) (C.faults console.old) (C.faults console.new) result }
    ensures check_accepts { IsToAccept (words_of words.now) (F.folder files.old)
        → Gives 0 (F.faults files.old) (F.faults files.new) (C.faults console.old) (C.faults console.new) result }
    ensures refuses { (kind : ℕ) (at : Place) → IsToRefuse (words_of words.now) (F.folder files.old) kind at
        → Gives 2 (F.faults files.old) (F.faults files.new) (C.faults console.old) (C.faults console.new) result }
    ensures too_long { IsTooLong (words_of words.now) (F.folder files.old)
        → Gives 2 (F.faults files.old) (F.faults files.new) (C.faults console.old) (C.faults console.new) result }
    ensures in_wrong_line { (line : ℕ) → IsMalformedScenario (words_of words.now) (F.folder files.old) line
        → Gives 3 (F.faults files.old) (F.faults files.new) (C.faults console.old) (C.faults console.new) result }
    ensures ready { IsReady (words_of words.now) (F.folder files.old)
        → Gives 0 (F.faults files.old) (F.faults files.new) (C.faults console.old) (C.faults console.new) result }

    // What a refusal prints, where the file is told.
    ensures refused_line { (kind : ℕ) (at : Place) → IsToRefuse (words_of words.now) (F.folder files.old) kind at
        → result ≡ 2 → PrintsRefusal kind at (C.printed console.old) (C.printed console.new) }
    ensures refused_too_long { IsTooLong (words_of words.now) (F.folder files.old)
        → result ≡ 2 → Grows (C.printed console.old) (C.printed console.new) (refused_line (refusal_number TooLarge) (place 1048576 1048577)) }

    ensures same { F.folder files.new ≡ F.folder files.old }
    ensures files_never_fall { (name : List ℕ) → F.faults files.old name ≤ F.faults files.new name }
    ensures console_never_falls { C.faults console.old ≤ C.faults console.new }
    ensures shortages_never_fall { C.shortages console.old ≤ C.shortages console.new }
{
    no_text_is_accepted_and_refused();
    a_text_is_refused_in_one_way();
    run_and_print(alloc, words, files, console)
}

/// Runs the command, and prints how it ended.
fn run_and_print<F: Files, C: Console>(
    alloc: Global,
    words: &[String],
    files: &mut F,
    console: &mut C,
) -> u8
    ensures ended { IsEnd (words_of words.now) (F.folder files.old) (F.faults files.old) (F.faults files.new)
        (C.printed console.old) (C.printed console.new) (C.faults console.old) (C.faults console.new)
        (C.shortages console.old) (C.shortages console.new) result }
    ensures same { F.folder files.new ≡ F.folder files.old }
    ensures files_never_fall { (name : List ℕ) → F.faults files.old name ≤ F.faults files.new name }
    ensures console_never_falls { C.faults console.old ≤ C.faults console.new }
    ensures shortages_never_fall { C.shortages console.old ≤ C.shortages console.new }
{
    match run_command(alloc, words, files) {
        Ok(ending) => report(alloc, ending, console),
        Err(NoMemory) => report_no_memory(console),
    }
}

/// Prints how a command ended, and answers its status.
fn report<C: Console>(alloc: Global, ending: Ending<'_>, console: &mut C) -> u8
    ensures printed { IsPrinted (status_of ending.entry) (text_of ending.entry)
        (C.printed console.old) (C.printed console.new) (C.faults console.old) (C.faults console.new)
        (C.shortages console.old) (C.shortages console.new) result }
    ensures never_falls { C.faults console.old ≤ C.faults console.new }
    ensures shortages_never_fall { C.shortages console.old ≤ C.shortages console.new }
{
    let status = ending.status();
    match ending.into_text(alloc) {
        Ok(text) => print(console, status, text.as_slice()),
        Err(NoMemory) => report_no_memory(console),
    }
}

/// Prints `out of memory`, and answers 8; or 5 where the console fails.
pub fn report_no_memory<C: Console>(console: &mut C) -> u8
    ensures printed { IsPrinted 8 memory_line
        (C.printed console.old) (C.printed console.new) (C.faults console.old) (C.faults console.new)
        (C.shortages console.old) (C.shortages console.new) result }
    ensures never_falls { C.faults console.old ≤ C.faults console.new }
    ensures shortages_never_fall { C.shortages console.old ≤ C.shortages console.new }
{
    print(console, 8, b"out of memory\n")
}

/// Prints the text. The status is 5 where the console fails, and 8 where it finds no memory.
fn print<C: Console>(console: &mut C, status: u8, text: &[u8]) -> u8
    ensures printed { IsPrinted status text.now
        (C.printed console.old) (C.printed console.new) (C.faults console.old) (C.faults console.new)
        (C.shortages console.old) (C.shortages console.new) result }
    ensures never_falls { C.faults console.old ≤ C.faults console.new }
    ensures shortages_never_fall { C.shortages console.old ≤ C.shortages console.new }
{
    match console.print(text) {
        PrintEnd::Printed => status,
        PrintEnd::Failed => 5,
        PrintEnd::NoMemory => 8,
    }
}

impl Ending<'_> {
    fn status(&self) -> u8
        ensures { result ≡ status_of self.now }
    {
        match self {
            Ending::Accepted | Ending::Ran(_) => 0,
            Ending::Usage => 1,
            Ending::Refused { .. } => 2,
            Ending::WrongLine(_) => 3,
            Ending::Unread(_) => 4,
        }
    }

    fn into_text(self, alloc: Global) -> Result<Vec<u8>, NoMemory>
        ensures { IfOk result (λ text. text.items ≡ text_of self.entry) }
    {
        match self {
            Ending::Accepted => Vec::from_slice(alloc, b"accepted\n"),
            Ending::Ran(trace) => Ok(trace),
            Ending::Usage => Vec::from_slice(alloc, USAGE),
            Ending::Refused { kind, at } => refused_line(alloc, kind, at),
            Ending::WrongLine(number) => {
                let mut text = Vec::from_slice(alloc, b"scenario line ")?;
                push_number(alloc, &mut text, number)?;
                text.push(b'\n')?;
                Ok(text)
            }
            Ending::Unread(name) => {
                let mut text = Vec::from_slice(alloc, b"cannot read ")?;
                text.extend_from_slice(name.as_bytes())?;
                text.push(b'\n')?;
                Ok(text)
            }
        }
    }
}

/// `refused KIND at FROM..TO`
fn refused_line(alloc: Global, kind: u8, at: Place) -> Result<Vec<u8>, NoMemory>
    ensures { IfOk result (λ text. text.items ≡ refused_line kind at) }
{
    let mut text = Vec::from_slice(alloc, b"refused ")?;
    push_number(alloc, &mut text, u64::from(kind))?;
    text.extend_from_slice(b" at ")?;
    push_number(alloc, &mut text, at.from as u64)?;
    text.extend_from_slice(b"..")?;
    push_number(alloc, &mut text, at.to as u64)?;
    text.push(b'\n')?;
    Ok(text)
}

const USAGE: &[u8] =
    b"usage: sipscript check FILE, sim FILE SCENARIO, load N, serve FILE [options]\n";

#[tactic(auto, using(crate::proofs::Files::check_names))]
fn run_command<'a, F: Files>(
    alloc: Global,
    words: &'a [String],
    files: &mut F,
) -> Result<Ending<'a>, NoMemory>
    ensures ended { IfOk result (IsEnding (words_of words.entry.now) (F.folder files.old) (F.faults files.old) (F.faults files.new)) }
    ensures same { F.folder files.new ≡ F.folder files.old }
    ensures never_falls { (name : List ℕ) → F.faults files.old name ≤ F.faults files.new name }
{
    match read_command(words) {
        Some(Command::Check { script }) => match read_script(alloc, script, files)? {
            Ok(_) => Ok(Ending::Accepted),
            Err(ending) => Ok(ending),
        },
        Some(Command::Sim { script, scenario }) => sim(alloc, script, scenario, files),
        None => Ok(Ending::Usage),
    }
}

/// The script of the file, or how a command ends that has none.
fn read_script<'a, F: Files>(
    alloc: Global,
    file: &'a str,
    files: &mut F,
) -> Result<Result<ClosedScript, Ending<'a>>, NoMemory>
    ensures accepted { IfOk result (λ r. IfOk r (ReadsScript (F.folder files.old) file.entry.now)) }
    ensures ended { IfOk result (λ r. IfErr r (λ ending. (words : List (List ℕ)) → NamesScript words file.entry.now
        → IsEnding words (F.folder files.old) (F.faults files.old) (F.faults files.new) ending)) }
    ensures same { F.folder files.new ≡ F.folder files.old }
    ensures never_falls { (name : List ℕ) → F.faults files.old name ≤ F.faults files.new name }
{
    let text = match files.read(alloc, file, LONGEST_SCRIPT) {
        Ok(text) => text,
        Err(FileFault::Failed) => return Ok(Err(Ending::Unread(file))),
        Err(FileFault::TooLong) => {
            return Ok(Err(Ending::Refused {
                kind: TOO_LARGE,
                at: PAST_LONGEST,
            }));
        }
        Err(FileFault::NoMemory) => return Err(NoMemory),
    };
    match accepted(alloc, text.as_slice()) {
        Ok(script) => Ok(Ok(script)),
        Err(ScriptFault::Refused { kind, at }) => Ok(Err(Ending::Refused { kind, at })),
        Err(ScriptFault::NoMemory) => Err(NoMemory),
    }
}

/// `sim FILE SCENARIO`: the script file, the script, the scenario file, the scenario, then the run.
#[tactic(auto, using(crate::proofs::Files::sim_names))]
fn sim<'a, F: Files>(
    alloc: Global,
    file: &'a str,
    scenario: &'a str,
    files: &mut F,
) -> Result<Ending<'a>, NoMemory>
    ensures ended { IfOk result (IsEnding (sim_words file.entry.now scenario.entry.now) (F.folder files.old) (F.faults files.old) (F.faults files.new)) }
    ensures same { F.folder files.new ≡ F.folder files.old }
    ensures never_falls { (name : List ℕ) → F.faults files.old name ≤ F.faults files.new name }
{
    let script = match read_script(alloc, file, files)? {
        Ok(script) => script,
        Err(ending) => return Ok(ending),
    };
    let lines = match files.read(alloc, scenario, LONGEST_SCENARIO) {
        Ok(lines) => lines,
        Err(FileFault::Failed) => return Ok(Ending::Unread(scenario)),
        Err(FileFault::TooLong) => return Ok(Ending::WrongLine(0)),
        Err(FileFault::NoMemory) => return Err(NoMemory),
    };
    match read_scenario(alloc, lines.as_slice()) {
        Ok(scenario) => Ok(Ending::Ran(trace_of(alloc, script, scenario)?)),
        Err(ScenarioFault::Line(number)) => Ok(Ending::WrongLine(number)),
        Err(ScenarioFault::NoMemory) => Err(NoMemory),
    }
}

/// The trace of the script over the scenario.
fn trace_of(alloc: Global, script: ClosedScript, scenario: Scenario) -> Result<Vec<u8>, NoMemory>
    ensures { IfOk result (λ trace. trace.items ≡ solo_trace script (contents_of scenario)) }
{
    let loaded = compile(alloc, script)?;
    solo_trace(alloc, &loaded, scenario)
}
