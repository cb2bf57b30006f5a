//! Runs.

ghost use Rattle.std.specs.Prelude.{◌≡◌, ◌<◌, ◌-◌, IsOkAnd, IfOk, IsTrue, ℕ, pos, [], slice_get};
ghost use Rattle.pv_values.specs.declared.run.HostAnswer.{HostAnswer};
ghost use Rattle.pv_values.specs.declared.run.How.{How};
ghost use Rattle.cfg_tree.specs.Meaning.{RunTalk, dialogue};
ghost use Rattle.cfg_tree.specs.declared.script.Script.{Script};
ghost use Rattle.cfg_tree.specs.Closed.{closed_ask};
ghost use Rattle.cfg_code.specs.Closed.{names_of};
ghost use Rattle.cfg_code.specs.Machine.{asked_of, asked_by, item_read, host_written, item_written, begun, told};
ghost use Rattle.cfg_code.specs.Follows.{Stands, Behaves, Waits};
ghost use Rattle.script_vm.specs.Asking.{shown_ask};
ghost use Rattle.script_vm.specs.Running.{IsWent, OnWent, IsNext, OnAsks, how_ended, with_patterns};
ghost use Rattle.script_vm.specs.Measure.{work_left};

use crate::ask::{AskView, VariableView};
use crate::operand::{answered_code, answered_value};
use crate::stack::Stack;
use crate::stop::Stop;
use cfg_code::laws::{the_asks_of_closed_code_are_closed, the_code_means_the_script};
use cfg_code::{Frame, Instr, Loaded, Wait};
use cfg_tree::TableUse;
use pv_values::{Env, HostAnswer, HostAsk, How, Matchers, PvUse, Val, Vals};
use std::alloc::{AllocError as NoMemory, Global};
use std::marker::Model;
use std::mem;

/// How many statements a run may begin.
const MAX_STATEMENTS: u32 = 100000;

/// A run of a block, which contracts see as what the machine has at that time.
///
/// `begin` makes one, and `restart` begins another block with it, in the room that it has. `advance`
/// takes an answer, the first of which is `Start`, and says whether the run asks or has ended. `asked`
/// shows the ask where it lies, until the answer comes; `close` takes the end out.
///
/// ```
/// // request_route { if (!t_relay()) $var(a) = 5; }
/// let mut run = Run::begin(alloc, &loaded, loaded.request, env)?;
/// run.advance(alloc, &loaded, HostAnswer::Start, &mut matchers); // Asks
/// run.asked(&loaded); // Call(TRelay, [])
/// run.advance(alloc, &loaded, HostAnswer::Code(1), &mut matchers); // Ended
/// run.close(alloc).1; // Normal
/// ```
#[derive(Debug, Drop)]
pub struct Run {
    /// The place of the next instruction.
    pub(crate) pc: usize,
    /// The operands.
    pub(crate) stack: Stack<Val>,
    /// The arguments of the next call.
    pub(crate) arguments: Vals,
    /// The open loops, and the blocks that wait.
    pub(crate) frames: Stack<Frame>,
    /// How many calls of routes may still be nested.
    pub(crate) calls_left: u32,
    pub(crate) env: Env,
    /// How many statements it may still begin.
    pub(crate) statements_left: u32,
    pub(crate) wait: Wait,
}

impl Model for Run {
    ghost use Rattle.cfg_code.specs.Machine.{Configuration};

    ghost Value = { Configuration };

    ghost view = { λ r. record {
      pc = r.pc;
      stack = r.stack;
      arguments = r.arguments;
      frames = r.frames;
      calls_left = r.calls_left;
      env = r.env;
      statements_left = r.statements_left;
      wait = r.wait;
    } };
}

/// How a run that was advanced goes on.
#[derive(Clone, Copy, Debug, PartialEq, Eq)]
pub enum Went {
    /// It asks: `asked` shows what.
    Asks,
    /// It has ended: `close` takes the end out.
    Ended,
    /// It was out of memory. Only `restart` is of use now.
    NoMemory,
}

/// How a run goes on that is handed on: it asks, or has ended, with its variables, or is out of memory.
#[derive(Debug, Drop)]
pub enum RunNext {
    Asks(Run, HostAsk),
    Ended(Env, How),
    NoMemory,
}

impl Run {
    /// A run of the block of this number, with these variables. It takes no memory.
    pub fn begin(alloc: Global, loaded: &Loaded, block: u32, env: Env) -> Result<Run, NoMemory>
        ensures waits { IsOkAnd result (λ run. (script : Script) → Stands loaded.now script → Waits loaded.now run (λ _. dialogue script block env)) }
        ensures begun { IsOkAnd result (λ run. run ≡ begun loaded.now block env) }
    {
        the_code_means_the_script();
        Ok(Run {
            pc: loaded.code.entry(block),
            stack: Stack::new(alloc),
            arguments: Vals::new(alloc),
            frames: Stack::new(alloc),
            calls_left: loaded.parameters.max_recursive_level,
            env,
            statements_left: MAX_STATEMENTS,
            wait: Wait::Start,
        })
    }

    /// Begins the block of this number, with these variables, whatever the run was. It takes no memory,
    /// and keeps the room that the run has.
    pub fn restart(&mut self, loaded: &Loaded, block: u32, env: Env)
        ensures waits { (script : Script) → Stands loaded.now script → Waits loaded.now self.new (λ _. dialogue script block env) }
        ensures begun { self.new ≡ begun loaded.now block env }
    {
        the_code_means_the_script();
        self.reset(loaded, block, env);
    }

    /// Takes the answer to the last ask, and goes on to the next one or to the end, as the script
    /// means. An answer that doesn't fit the ask is read as `$null`, or as the code 0. A run that has
    /// ended stays as it is, and gives its end again.
    pub fn advance(
        &mut self,
        alloc: Global,
        loaded: &Loaded,
        answer: HostAnswer,
        matchers: &mut Matchers,
    ) -> Went
        ensures next { matchers.old ≡ loaded.now.patterns → (next : HostAnswer → RunTalk) → Waits loaded.now self.old next → IsWent loaded.now (next answer) self.new result }
        // A run asks finitely often.
        ensures less { OnWent result (work_left loaded.now self.new < work_left loaded.now self.old) }
        ensures again { (how : How) → self.old.wait ≡ Wait.Over how → (result ≡ Went.Ended) × (self.new ≡ self.old) }
        ensures same { matchers.new ≡ matchers.old }
    {
        if let Wait::Over(_) = self.wait {
            return Went::Ended;
        }
        match self.tell(answer) {
            Ok(()) => self.run_on(alloc, loaded, matchers),
            Err(_) => Went::NoMemory,
        }
    }

    /// What the run asks, where it lies.
    pub fn asked<'a>(&'a self, loaded: &'a Loaded) -> AskView<'a>
        ensures shows { shown_ask result ≡ asked_of loaded.now self.now }
        // Each table, pattern and block that the ask names is there.
        ensures closed { IsTrue (closed_ask (names_of loaded.now) (shown_ask result)) }
    {
        the_asks_of_closed_code_are_closed();
        loaded.is_closed();
        self.asked_in(loaded.code.instrs())
    }

    /// The variables and the end of a run that has ended. The run has no variables then.
    pub fn close(&mut self, alloc: Global) -> (Env, How)
        ensures end { (result.0 ≡ self.old.env) × (result.1 ≡ how_ended self.old.wait) }
        ensures emptied { self.new ≡ record self.old { env = record { vars = []; rc = pos 0 } } }
    {
        let empty = Env {
            vars: Vals::new(alloc),
            rc: 0,
        };
        let how = match self.wait {
            Wait::Over(how) => how,
            _ => How::Exit,
        };
        (mem::replace(&mut self.env, empty), how)
    }

    /// The same as `advance`, with a run and an ask that are handed on.
    pub fn feed(self, alloc: Global, loaded: &Loaded, answer: HostAnswer) -> RunNext
        ensures next { (next : HostAnswer → RunTalk) → Waits loaded.now self next → IsNext loaded.now (next answer) result }
        ensures less { OnAsks result (λ run. work_left loaded.now run < work_left loaded.now self) }
    {
        let mut run = self;
        let Ok(mut matchers) = loaded.patterns.matchers(alloc) else {
            return RunNext::NoMemory;
        };
        match run.advance(alloc, loaded, answer, &mut matchers) {
            Went::Asks => match run.asked(loaded).copied(alloc) {
                Ok(ask) => RunNext::Asks(run, ask),
                Err(_) => RunNext::NoMemory,
            },
            Went::Ended => {
                let (env, how) = run.close(alloc);
                RunNext::Ended(env, how)
            }
            Went::NoMemory => RunNext::NoMemory,
        }
    }

    /// Puts the run at the beginning of a block.
    fn reset(&mut self, loaded: &Loaded, block: u32, env: Env)
        ensures { self.new ≡ begun loaded.now block env }
    {
        self.pc = loaded.code.entry(block);
        self.stack.clear();
        self.arguments.clear();
        self.frames.clear();
        self.calls_left = loaded.parameters.max_recursive_level;
        self.env = env;
        self.statements_left = MAX_STATEMENTS;
        self.wait = Wait::Start;
    }

    /// What the instruction before the run's place asks.
    fn asked_in<'a>(&'a self, instrs: &'a [Instr]) -> AskView<'a>
        ensures { shown_ask result ≡ asked_by (slice_get instrs.now (self.now.pc - 1)) self.now }
    {
        let at = self.pc.saturating_sub(1);
        if at >= instrs.len() {
            return AskView::nothing();
        }
        match &instrs[at] {
            Instr::Read(x) => AskView::Read(VariableView::Host(x)),
            Instr::ReadItem(way, table) => self.item_read(*way, *table),
            Instr::Write(x) => self.host_written(x),
            Instr::WriteItem(way, table) => self.item_written(*way, *table),
            Instr::CallFunction(function) => AskView::Call(function, self.arguments.as_slice()),
            _ => AskView::nothing(),
        }
    }

    /// The ask to read an item, whose key is on top of the stack.
    fn item_read(&self, way: TableUse, table: u32) -> AskView<'_>
        ensures { shown_ask result ≡ item_read way table (slice_get self.now.stack 0) }
    {
        match self.stack.below_top(0) {
            Some(Val::Text(key)) => AskView::Read(VariableView::Item(way, table, key.bytes())),
            _ => AskView::nothing(),
        }
    }

    /// The ask to write the value on top of the stack to a variable.
    fn host_written<'a>(&'a self, variable: &'a PvUse) -> AskView<'a>
        ensures { shown_ask result ≡ host_written variable.now (slice_get self.now.stack 0) }
    {
        match self.stack.below_top(0) {
            Some(v) => AskView::Write(VariableView::Host(variable), v),
            None => AskView::nothing(),
        }
    }

    /// The ask to write the value on top of the stack to an item, whose key lies below it.
    fn item_written(&self, way: TableUse, table: u32) -> AskView<'_>
        ensures { shown_ask result ≡ item_written way table (slice_get self.now.stack 0) (slice_get self.now.stack 1) }
    {
        match (self.stack.below_top(0), self.stack.below_top(1)) {
            (Some(v), Some(Val::Text(key))) => {
                AskView::Write(VariableView::Item(way, table, key.bytes()), v)
            }
            _ => AskView::nothing(),
        }
    }

    /// Takes an answer.
    fn tell(&mut self, answer: HostAnswer) -> Result<(), NoMemory>
        ensures { IfOk result (λ _. self.new ≡ told answer self.old) }
    {
        match self.wait {
            Wait::Start => {}
            Wait::Value => self.stack.push(answered_value(answer))?,
            Wait::ItemValue => {
                self.stack.pop();
                self.stack.push(answered_value(answer))?;
            }
            Wait::Written => {
                self.stack.pop();
            }
            Wait::ItemWritten => {
                self.stack.pop();
                self.stack.pop();
            }
            Wait::Code => {
                self.env.rc = answered_code(answer);
                self.arguments.clear();
            }
            Wait::Over(_) => return Ok(()),
        }
        self.wait = Wait::Start;
        Ok(())
    }

    /// Goes on to the next ask, or to the end.
    fn run_on(&mut self, alloc: Global, loaded: &Loaded, matchers: &mut Matchers) -> Went
        ensures next { (talk : RunTalk) → Behaves (with_patterns matchers.old loaded.now) self.old talk → IsWent (with_patterns matchers.old loaded.now) talk self.new result }
        ensures less { OnWent result (work_left loaded.now self.new < work_left loaded.now self.old) }
        ensures same { matchers.new ≡ matchers.old }
    {
        'run: loop {
            match self.step(alloc, loaded, matchers) {
                Ok(()) => {}
                Err(Stop::Asked) => return Went::Asks,
                Err(Stop::Over) => return Went::Ended,
                Err(Stop::Stuck) => {
                    self.wait = Wait::Over(How::Exit);
                    return Went::Ended;
                }
                Err(Stop::NoMemory) => return Went::NoMemory,
            }
        }
    }
}
