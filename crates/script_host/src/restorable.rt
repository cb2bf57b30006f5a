//! A run that is handed on from answer to answer, and that gives back its data as they were where memory runs out.
ghost use Rattle.std.specs.Prelude.{◌≡◌, ◌<◌, IfOk};
ghost use Rattle.cfg_tree.specs.declared.script.Script.{Script};
ghost use Rattle.cfg_code.specs.Follows.{Stands};
ghost use Rattle.host_meaning.specs.declared.ask.Heard.{Heard};
ghost use Rattle.host_meaning.specs.Run.{Around, kept};
ghost use Rattle.host_meaning.specs.Host.{HostCourse, run_of};
ghost use Rattle.script_host.specs.Asking.{as_heard};
ghost use Rattle.script_host.specs.Lending.{around_of, IsRead, state_of};
ghost use Rattle.script_host.specs.Running.{asks_left};
ghost use Rattle.script_host.specs.Restoring.{RestorableWaits, IsHostNext, OnNext, as_before, run_in};

use crate::ask::{Answer, Ask};
use crate::lent::Lent;
use crate::run::{HostRun, HostWent};
use crate::workshop::Workshop;
use cfg_code::Loaded;
use pv_table::{Facts, RunData};
use pv_values::How;
use std::alloc::Global;

/// A run with a copy of the facts that it began with. It is moved at each answer: a caller that has to be fast keeps a
/// [`HostRun`] and advances it in place.
///
/// ```
/// // request_route { if ($sht(t=>calls) > 9) sl_send_reply("503", "Busy"); }
/// let run = RestorableRun::begin(alloc, &loaded, &mut shop, loaded.request, data)?;
/// run.feed(alloc, &lent, &mut shop, Answer::Start); // Asks(run, Table { table: 0, op: Get("calls") })
/// run.feed(alloc, &lent, &mut shop, Answer::Table(TabReply::Value(Val::Int(10)))); // Ended(data, Normal)
/// ```
#[derive(Drop)]
pub struct RestorableRun {
    pub(crate) run: HostRun,
    pub(crate) before: Facts,
}

/// How a run goes on that is handed on.
#[derive(Drop)]
pub enum HostNext {
    /// It asks this.
    Asks(RestorableRun, Ask),
    /// It has ended so, with these data.
    Ended(RunData, How),
    /// It, or an object that it asked, found no memory. The data are as at the beginning, but for the blocks and the last
    /// suspension: these are as at the last ask.
    NoMemory(RunData),
}

impl RestorableRun {
    /// A run of the block of this number over these data. The first answer that it takes may be any. Where it finds no memory
    /// the data come back.
    pub fn begin(
        alloc: Global,
        loaded: &Loaded,
        shop: &mut Workshop<'_>,
        block: u32,
        state: RunData,
    ) -> Result<RestorableRun, RunData>
        ensures waits { IfOk result (λ run. (script : Script) → Stands loaded.now script → (a : Around)
            → RestorableWaits loaded.now a state.facts run (λ _. run_of script block a (state_of state))) }
        ensures refused { (d : RunData) → result ≡ Err d → d ≡ state }
        ensures same { shop.new ≡ shop.old }
    {
        let Ok(before) = state.facts.copy(alloc) else {
            return Err(state);
        };
        let run = HostRun::begin(alloc, loaded, shop, block, state)?;
        Ok(RestorableRun { run, before })
    }

    /// Takes the answer to the last ask, and goes on to the next ask outside or to the end, as the block means.
    pub fn feed(
        self,
        alloc: Global,
        lent: &Lent<'_>,
        shop: &mut Workshop<'_>,
        answer: Answer,
    ) -> HostNext
        requires reads { IsRead lent.now }
        ensures next { shop.old ≡ lent.now.loaded.now.patterns → (before : Facts) (next : Heard → HostCourse)
            → RestorableWaits lent.now.loaded.now (around_of lent.now) before self next
            → IsHostNext lent.now.loaded.now (around_of lent.now) before (next (as_heard answer)) result }
        // A run asks finitely often.
        ensures less { OnNext result (λ run. asks_left lent.now.loaded.now (run_in run) < asks_left lent.now.loaded.now (run_in self)) }
        ensures same { shop.new ≡ shop.old }
    {
        let RestorableRun { mut run, before } = self;
        match run.advance(alloc, lent, shop, answer) {
            HostWent::Asks => {
                let ask = run.take_ask();
                HostNext::Asks(RestorableRun { run, before }, ask)
            }
            HostWent::Ended => {
                let (state, how) = run.close(alloc, shop);
                HostNext::Ended(state, how)
            }
            HostWent::NoMemory => {
                let (state, _) = run.close(alloc, shop);
                HostNext::NoMemory(restored(before, state))
            }
        }
    }
}

/// These facts, with the blocks and the last suspension of the data.
fn restored(before: Facts, state: RunData) -> RunData
    ensures { state_of result ≡ as_before before (kept (state_of state)) }
{
    let RunData { facts, blocks } = state;
    let mut restored = before;
    restored.label = facts.label;
    RunData {
        facts: restored,
        blocks,
    }
}
