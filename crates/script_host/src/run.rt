//! A run of a block over its data.
ghost use Rattle.std.specs.Prelude.{◌≡◌, ◌<◌, ◌*◌, IfOk, OnErr, replicate, pos};
ghost use Rattle.pv_values.specs.declared.value.Val.TheVariants.{Int as IntValue};
ghost use Rattle.cfg_tree.specs.declared.script.Script.{Script};
ghost use Rattle.cfg_tree.specs.Meaning.{dialogue};
ghost use Rattle.cfg_code.specs.Follows.{Stands, Waits};

use crate::ask::{Answer, Ask};
use crate::lent::Lent;
use crate::relaying::resume;
use crate::row::{Going, Wait, Waiting, row_of};
use crate::workshop::Workshop;
use cfg_code::Loaded;
use host_meaning::laws::a_row_that_asks_nothing_keeps;
use pv_table::RunData;
use pv_values::{Env, HostAnswer, How, Val, Vals};
use script_vm::{Run, Went};
use std::alloc::{AllocError as NoMemory, Global};
use std::mem;

/// A run of a block of a script, with its data.
///
/// `begin` makes one; `advance` takes an answer, the first of which is `Start`; `asked` and `take_ask` give the ask that is
/// to be answered; `close` takes the end out. The script, the settings and the message are lent to each call, and are the
/// same at all calls of a run.
///
/// ```
/// // request_route { if (!is_method("OPTIONS")) exit; $sht(t=>calls) = 1; sl_send_reply("200", "OK"); }
/// let mut run = HostRun::begin(alloc, &loaded, &mut shop, loaded.request, data)?;
/// run.advance(alloc, &lent, &mut shop, Answer::Start); // Asks
/// run.asked(); // Table { table: 0, op: Set("calls", 1) }
/// run.advance(alloc, &lent, &mut shop, Answer::Table(TabReply::Done)); // Ended
/// run.close(alloc, &mut shop).0.facts.outcome; // Stateless(200, "OK")
/// ```
#[derive(Drop)]
pub struct HostRun {
    pub(crate) run: Run,
    pub(crate) state: RunData,
    /// What it waits for.
    pub(crate) wait: Waiting,
    /// What it asked last.
    pub(crate) ask: Ask,
}

/// How a run that was advanced goes on.
#[derive(Clone, Copy, Debug, PartialEq, Eq)]
pub enum HostWent {
    /// It asks: `asked` shows what.
    Asks,
    /// It has ended: `close` takes the end out.
    Ended,
    /// It, or an object that it asked, found no memory: `close` gives back its data, of which the blocks and the last
    /// suspension are as they were at its last ask.
    NoMemory,
}

impl HostRun {
    ghost use Rattle.std.specs.Prelude.{ℕ};
    ghost use Rattle.pv_values.specs.declared.run.How.{How};
    ghost use Rattle.script_vm.specs.Measure.{work_left};
    ghost use Rattle.host_meaning.specs.declared.ask.Heard.{Heard};
    ghost use Rattle.host_meaning.specs.Run.{Around};
    ghost use Rattle.host_meaning.specs.Host.{HostCourse, run_of};
    ghost use Rattle.script_host.specs.Asking.{as_heard};
    ghost use Rattle.script_host.specs.Lending.{around_of, IsRead, state_of};
    ghost use Rattle.script_host.specs.Rows.{most_asks};
    ghost use Rattle.script_host.specs.Running.{HostWaits, IsAt, IsHostWent, OnAsks, OnEnded, HasEnded, asks_left, ask_of, state_in, how_of, with_ask};

    /// A run of the block of this number over these data. The first answer that it takes may be any. Where it finds no memory
    /// the data come back.
    pub fn begin(
        alloc: Global,
        loaded: &Loaded,
        shop: &mut Workshop<'_>,
        block: u32,
        state: RunData,
    ) -> Result<HostRun, RunData>
        ensures waits { IfOk result (λ run. (script : Script) → Stands loaded.now script → (a : Around) → HostWaits loaded.now a run (λ _. run_of script block a (state_of state))) }
        ensures refused { (d : RunData) → result ≡ Err d → d ≡ state }
        ensures same { shop.new ≡ shop.old }
    {
        let Ok(env) = env_at_start(alloc, loaded.vars) else {
            return Err(state);
        };
        let Ok(run) = begun(alloc, loaded, shop, block, env) else {
            return Err(state);
        };
        Ok(HostRun {
            run,
            state,
            wait: Waiting::Row(Wait::Start),
            ask: Ask::Free,
        })
    }

    /// Takes the answer to the last ask, and goes on to the next ask outside or to the end, as the block means. A run that has
    /// ended stays as it is, and ends again.
    pub fn advance(
        &mut self,
        alloc: Global,
        lent: &Lent<'_>,
        shop: &mut Workshop<'_>,
        answer: Answer,
    ) -> HostWent
        requires reads { IsRead lent.now }
        ensures next { shop.old ≡ lent.now.loaded.now.patterns → (next : Heard → HostCourse) → HostWaits lent.now.loaded.now (around_of lent.now) self.old next
            → IsHostWent lent.now.loaded.now (around_of lent.now) (next (as_heard answer)) self.new result }
        // Where it has ended it may as well have run out of memory: whoever decides behind it may take memory of its own.
        ensures short { shop.old ≡ lent.now.loaded.now.patterns → (next : Heard → HostCourse) → HostWaits lent.now.loaded.now (around_of lent.now) self.old next
            → OnEnded result (IsHostWent lent.now.loaded.now (around_of lent.now) (next (as_heard answer)) self.new HostWent.NoMemory) }
        // A run asks finitely often.
        ensures less { OnAsks result (asks_left lent.now.loaded.now self.new < asks_left lent.now.loaded.now self.old) }
        ensures again { (how : How) → HasEnded self.old how → (result ≡ HostWent.Ended) × (self.new ≡ self.old) }
        ensures same { shop.new ≡ shop.old }
    {
        match resume(alloc, lent, &mut self.state, self.wait, answer) {
            Ok(Going::Tells(told)) => self.run_on(alloc, lent, shop, told),
            Ok(Going::Asks(ask, wait)) => self.asks(ask, wait),
            Err(_) => HostWent::NoMemory,
        }
    }

    /// Goes on with what it is told, to the next ask outside or to the end.
    fn run_on(
        &mut self,
        alloc: Global,
        lent: &Lent<'_>,
        shop: &mut Workshop<'_>,
        first: HostAnswer,
    ) -> HostWent
        requires reads { IsRead lent.now }
        ensures next { shop.old ≡ lent.now.loaded.now.patterns → (whole : HostCourse)
            → IsAt lent.now.loaded.now (around_of lent.now) self.old.run first (state_of self.old.state) whole
            → IsHostWent lent.now.loaded.now (around_of lent.now) whole self.new result }
        ensures short { shop.old ≡ lent.now.loaded.now.patterns → (whole : HostCourse)
            → IsAt lent.now.loaded.now (around_of lent.now) self.old.run first (state_of self.old.state) whole
            → OnEnded result (IsHostWent lent.now.loaded.now (around_of lent.now) whole self.new HostWent.NoMemory) }
        ensures less { OnAsks result (asks_left lent.now.loaded.now self.new < most_asks * work_left lent.now.loaded.now self.old.run) }
        ensures again { (how : How) → HasEnded self.old how → (result ≡ HostWent.Ended) × (self.new ≡ self.old) }
        ensures same { shop.new ≡ shop.old }
    {
        let mut told = first;
        a_row_that_asks_nothing_keeps();
        'asks: loop {
            match self
                .run
                .advance(alloc, lent.loaded, told, &mut shop.matchers)
            {
                Went::Asks => {
                    let asked = self.run.asked(lent.loaded);
                    match row_of(alloc, lent, &mut shop.room, &mut self.state, asked) {
                        Ok(Going::Tells(answer)) => told = answer,
                        Ok(Going::Asks(ask, wait)) => return self.asks(ask, wait),
                        Err(_) => return HostWent::NoMemory,
                    }
                }
                Went::Ended => return self.ends(),
                Went::NoMemory => return HostWent::NoMemory,
            }
        }
    }

    /// Asks this outside, and waits so.
    fn asks(&mut self, ask: Ask, wait: Waiting) -> HostWent
        ensures asks { result ≡ HostWent.Asks }
        ensures new { self.new ≡ record self.old { ask = ask; wait = wait } }
    {
        self.ask = ask;
        self.wait = wait;
        HostWent::Asks
    }

    /// Has ended: whatever it is answered now, it ends again.
    fn ends(&mut self) -> HostWent
        ensures ended { result ≡ HostWent.Ended }
        ensures new { self.new ≡ record self.old { wait = Waiting.Row Wait.Start } }
    {
        self.wait = Waiting::Row(Wait::Start);
        HostWent::Ended
    }

    /// What was asked last.
    pub fn asked(&self) -> &Ask
        ensures { result.now ≡ ask_of self.now }
    {
        &self.ask
    }

    /// What was asked last, taken out with what it owns.
    pub fn take_ask(&mut self) -> Ask
        ensures asked { result ≡ ask_of self.old }
        ensures same { self.new ≡ with_ask self.old Ask.Free }
    {
        mem::replace(&mut self.ask, Ask::Free)
    }

    /// The data of a run that has ended or found no memory, and how it ended. The workshop keeps the run's memory.
    pub fn close(self, alloc: Global, shop: &mut Workshop<'_>) -> (RunData, How)
        ensures end { (result.0 ≡ state_in self) × (result.1 ≡ how_of self) }
        ensures same { shop.new ≡ shop.old }
    {
        let HostRun {
            mut run,
            state,
            wait: _,
            ask: _,
        } = self;
        let (_, how) = run.close(alloc);
        shop.spare = Some(run);
        (state, how)
    }
}

/// A run of the block with these variables, in the memory of an earlier run where there was one.
fn begun(
    alloc: Global,
    loaded: &Loaded,
    shop: &mut Workshop<'_>,
    block: u32,
    env: Env,
) -> Result<Run, NoMemory>
    ensures waits { IfOk result (λ run. (script : Script) → Stands loaded.now script → Waits loaded.now run (λ _. dialogue script block env)) }
    ensures same { shop.new ≡ shop.old }
{
    if let Some(mut run) = shop.spare.take() {
        run.restart(loaded, block, env);
        return Ok(run);
    }
    Run::begin(alloc, loaded, block, env)
}

/// The variables of a run that begins: each `$var` is 0, and so is `$rc`.
fn env_at_start(alloc: Global, vars: u32) -> Result<Env, NoMemory>
    ensures { IfOk result (λ env. env ≡ record { vars = replicate vars (IntValue (pos 0)); rc = pos 0 }) }
{
    let mut list = Vals::new(alloc);
    for _ in 0..vars {
        list.push(Val::Int(0))?;
    }
    Ok(Env { vars: list, rc: 0 })
}
