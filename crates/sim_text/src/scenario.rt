//! The text of a scenario.

ghost use Rattle.std.specs.Prelude.{◌≡◌, ◌≤◌, ℕ, Err, All, IfOk};
ghost use Rattle.outside_ports.specs.MemPort.{IsInOrder, IsShort};
ghost use Rattle.sim_text.specs.Scenario.{Contents, IsScenario, IsFirstWrong, GivesScenario, GivesLine, contents_of};

use crate::draft::{Draft, LineFault};
use crate::line::read_line;
use host_meaning::HostAddress;
use outside_ports::Arrival;
use sip_words::split_once;
use std::alloc::Global;

/// What a scenario says.
#[derive(Debug, Drop)]
pub struct Scenario {
    /// The addresses of hosts by their names, in order.
    pub hosts: Vec<HostAddress>,
    /// The datagrams that arrive, in order.
    pub arrivals: Vec<Arrival>,
    /// The moment of the end, in milliseconds.
    pub end: u64,
}

/// Why a text is no scenario.
#[derive(Clone, Copy, Debug, PartialEq, Eq)]
pub enum ScenarioFault {
    /// The number, from 1, of the first line that is malformed.
    Line(u64),
    NoMemory,
}

/// Reads a scenario, whose lines each end with LF.
///
/// The text is a scenario, or one of its lines is the first malformed one, never both; and that is what is answered. In the
/// place of either it may be out of memory.
pub fn read_scenario(alloc: Global, text: &[u8]) -> Result<Scenario, ScenarioFault>
    ensures read { IfOk result (λ s. IsScenario text.now (contents_of s)) }
    ensures wrong { (number : ℕ) → result ≡ Err (ScenarioFault.Line number) → IsFirstWrong text.now number }
    ensures whole { (said : Contents) → IsScenario text.now said → GivesScenario said result }
    ensures first { (number : ℕ) → IsFirstWrong text.now number → GivesLine number result }

    // What holds of every scenario that reads.
    ensures in_order { IfOk result (λ s. IsInOrder s.arrivals.items s.end) }
    ensures short { IfOk result (λ s. All IsShort s.arrivals.items) }
    ensures day { IfOk result (λ s. s.end ≤ 86400000) }
{
    read_lines(alloc, text)
}

/// Reads the lines one after another, up to the end or the first that is malformed.
fn read_lines(alloc: Global, text: &[u8]) -> Result<Scenario, ScenarioFault>
    ensures read { IfOk result (λ s. IsScenario text.now (contents_of s)) }
    ensures wrong { (number : ℕ) → result ≡ Err (ScenarioFault.Line number) → IsFirstWrong text.now number }
    ensures in_order { IfOk result (λ s. IsInOrder s.arrivals.items s.end) }
    ensures short { IfOk result (λ s. All IsShort s.arrivals.items) }
    ensures day { IfOk result (λ s. s.end ≤ 86400000) }
{
    let mut draft = Draft::new(alloc);
    let mut rest = text;
    let mut number: u64 = 1;
    while let Some((line, more)) = split_once(rest, b'\n') {
        let Some(line) = read_line(line) else {
            return Err(ScenarioFault::Line(number));
        };
        match draft.take(alloc, line) {
            Ok(()) => {}
            Err(LineFault::Malformed) => return Err(ScenarioFault::Line(number)),
            Err(LineFault::NoMemory) => return Err(ScenarioFault::NoMemory),
        }
        rest = more;
        number += 1;
    }
    match draft.end {
        Some(end) if rest.is_empty() => Ok(Scenario {
            hosts: draft.hosts,
            arrivals: draft.arrivals,
            end,
        }),
        _ => Err(ScenarioFault::Line(number)),
    }
}
