//! What each instruction does: values, and asks.

ghost use Rattle.std.specs.Prelude.{◌≡◌, ◌<◌, ◌^◌, IfOk, IfErr, not, slice_get, slice_index_or, []};
ghost use Rattle.pv_values.specs.Values.{sum_of, binary_value, negated, bit, is_true};
ghost use Rattle.cfg_tree.specs.Transformations.{transformed};
ghost use Rattle.cfg_tree.specs.Meaning.{matched};
ghost use Rattle.cfg_code.specs.Machine.{moved, put, storing, asking, reading_item, writing, writing_item, changing, joining, pushing_argument, on_top, act, step_of};
ghost use Rattle.script_vm.specs.Running.{ComesTo, with_patterns};

use crate::operand::{matches, negative};
use crate::run::Run;
use crate::stop::Stop;
use cfg_code::{Instr, Loaded, Wait};
use cfg_tree::transform;
use pv_values::{
    BinOp, How, Matchers, Transformation, Val, bit_value, into_text, operate, sum, truth,
};
use std::alloc::Global;

impl Run {
    /// Takes the topmost value.
    pub(crate) fn pop(&mut self) -> Result<Val, Stop>
        ensures value { IfOk result (λ v. self.old ≡ put v self.new) }
        ensures stuck { IfErr result (λ e. (e ≡ Stop.Stuck) × (self.old.stack ≡ [])) }
    {
        match self.stack.pop() {
            Some(v) => Ok(v),
            None => Err(Stop::Stuck),
        }
    }

    /// Puts a value on top.
    pub(crate) fn push(&mut self, v: Val) -> Result<(), Stop>
        ensures value { IfOk result (λ _. self.new ≡ put v self.old) }
        ensures memory { IfErr result (λ e. e ≡ Stop.NoMemory) }
    {
        self.stack.push(v)?;
        Ok(())
    }

    /// The same as an instruction.
    pub(crate) fn put(&mut self, v: Val) -> Result<(), Stop>
        ensures { ComesTo (moved (put v self.old)) result self.new }
    {
        self.stack.push(v)?;
        Ok(())
    }

    fn load(&mut self, alloc: Global, x: u32) -> Result<(), Stop>
        ensures { ComesTo (moved (put (slice_index_or self.old.env.vars x Val.Null) self.old)) result self.new }
    {
        let v = self.env.vars.copy_at(alloc, x as usize)?;
        self.put(v)
    }

    fn store(&mut self, x: u32) -> Result<(), Stop>
        ensures { ComesTo (storing x self.old) result self.new }
    {
        let v = self.pop()?;
        let x = x as usize;
        if x < self.env.vars.as_slice().len() {
            self.env.vars.set(x, v);
        }
        Ok(())
    }

    /// Asks, and waits for this.
    fn ask(&mut self, wait: Wait) -> Result<(), Stop>
        ensures { ComesTo (asking wait self.old) result self.new }
    {
        self.wait = wait;
        Err(Stop::Asked)
    }

    /// Makes the topmost value its text.
    fn read_item(&mut self, alloc: Global) -> Result<(), Stop>
        ensures { ComesTo (reading_item self.old) result self.new }
    {
        let key = self.pop()?;
        let key = into_text(alloc, key)?;
        self.push(Val::Text(key))?;
        self.ask(Wait::ItemValue)
    }

    fn write(&mut self) -> Result<(), Stop>
        ensures { ComesTo (writing self.old) result self.new }
    {
        let v = self.pop()?;
        self.push(v)?;
        self.ask(Wait::Written)
    }

    fn write_item(&mut self, alloc: Global) -> Result<(), Stop>
        ensures { ComesTo (writing_item self.old) result self.new }
    {
        let v = self.pop()?;
        let key = self.pop()?;
        let key = into_text(alloc, key)?;
        self.push(Val::Text(key))?;
        self.push(v)?;
        self.ask(Wait::ItemWritten)
    }

    fn transform(&mut self, alloc: Global, transformation: Transformation) -> Result<(), Stop>
        ensures { ComesTo (changing (transformed transformation) self.old) result self.new }
    {
        let v = self.pop()?;
        let w = transform(alloc, transformation, &v)?;
        self.put(w)
    }

    fn concat(&mut self, alloc: Global) -> Result<(), Stop>
        ensures { ComesTo (joining sum_of self.old) result self.new }
    {
        let back = self.pop()?;
        let front = self.pop()?;
        let v = sum(alloc, front, back)?;
        self.put(v)
    }

    fn push_argument(&mut self) -> Result<(), Stop>
        ensures { ComesTo (pushing_argument self.old) result self.new }
    {
        let v = self.pop()?;
        self.arguments.push(v)?;
        Ok(())
    }

    fn binary(&mut self, alloc: Global, op: BinOp) -> Result<(), Stop>
        ensures { ComesTo (joining (binary_value op) self.old) result self.new }
    {
        let y = self.pop()?;
        let x = self.pop()?;
        let v = operate(alloc, op, x, y)?;
        self.put(v)
    }

    fn negate(&mut self, alloc: Global) -> Result<(), Stop>
        ensures { ComesTo (changing negated self.old) result self.new }
    {
        let v = self.pop()?;
        let w = negative(alloc, v)?;
        self.put(w)
    }

    fn not(&mut self) -> Result<(), Stop>
        ensures { ComesTo (changing (λ v. bit (not (is_true v))) self.old) result self.new }
    {
        let v = self.pop()?;
        self.put(bit_value(!truth(&v)))
    }

    fn to_bool(&mut self) -> Result<(), Stop>
        ensures { ComesTo (changing (λ v. bit (is_true v)) self.old) result self.new }
    {
        let v = self.pop()?;
        self.put(bit_value(truth(&v)))
    }

    fn matches(&mut self, alloc: Global, number: u32, matchers: &mut Matchers) -> Result<(), Stop>
        ensures value { ComesTo (changing (λ v. bit (matched (slice_get matchers.old number) v)) self.old) result self.new }
        ensures same { matchers.new ≡ matchers.old }
    {
        let v = self.pop()?;
        let found = matches(alloc, matchers, number, &v)?;
        self.put(bit_value(found))
    }

    fn forget(&mut self) -> Result<(), Stop>
        ensures { ComesTo (on_top self.old.stack self.old (λ v. moved)) result self.new }
    {
        self.pop()?;
        Ok(())
    }

    fn push_copy(&mut self, alloc: Global, v: &Val) -> Result<(), Stop>
        ensures { ComesTo (moved (put v.now self.old)) result self.new }
    {
        let v = v.copy(alloc)?;
        self.put(v)
    }

    /// What an instruction does, where the run's place is after it.
    fn act(
        &mut self,
        alloc: Global,
        loaded: &Loaded,
        instr: &Instr,
        matchers: &mut Matchers,
    ) -> Result<(), Stop>
        requires { self.old.pc < 2 ^ 63 }
        ensures does { ComesTo (act (with_patterns matchers.old loaded.now) instr.now self.old) result self.new }
        ensures same { matchers.new ≡ matchers.old }
    {
        match instr {
            Instr::Push(v) => self.push_copy(alloc, v),
            Instr::Load(x) => self.load(alloc, *x),
            Instr::LoadCode => self.put(Val::Int(self.env.rc)),
            Instr::LoadSuccess => self.put(bit_value(0 < self.env.rc)),
            Instr::Store(x) => self.store(*x),
            Instr::Read(_) => self.ask(Wait::Value),
            Instr::ReadItem(_, _) => self.read_item(alloc),
            Instr::Write(_) => self.write(),
            Instr::WriteItem(_, _) => self.write_item(alloc),
            Instr::Transform(transformation) => self.transform(alloc, *transformation),
            Instr::Concat => self.concat(alloc),
            Instr::PushArgument => self.push_argument(),
            Instr::CallFunction(_) => self.ask(Wait::Code),
            Instr::ExitOnZero => self.exit_on_zero(),
            Instr::CallBlock(block) => self.call_block(loaded.code.entry(*block)),
            Instr::Binary(op) => self.binary(alloc, *op),
            Instr::Negate => self.negate(alloc),
            Instr::Not => self.not(),
            Instr::ToBool => self.to_bool(),
            Instr::Match(number) => self.matches(alloc, *number, matchers),
            Instr::JumpIfFalseOrPop(n) => self.jump_if_false_or_pop(*n),
            Instr::JumpIfTrueOrPop(n) => self.jump_if_true_or_pop(*n),
            Instr::Pop => self.forget(),
            Instr::CountStatement => self.count_statement(),
            Instr::JumpIfFalse(n) => self.jump_if_false(*n),
            Instr::Jump(n) => self.jump(*n),
            Instr::Case(label, n) => self.case(label, *n),
            Instr::BeginLoop(n) => self.begin_loop(loaded.parameters.max_while_loops, *n),
            Instr::BeginRound => self.begin_round(),
            Instr::LoopBack => self.loop_back(),
            Instr::EndLoop => self.end_loop(),
            Instr::Break => self.count_and_break(),
            Instr::Return => self.return_top(),
            Instr::Exit => self.over(How::Exit),
            Instr::Drop => self.over(How::Drop),
            Instr::EndBlock => self.leave(1, How::Normal),
        }
    }

    /// One instruction, whichever stands at the run's place.
    pub(crate) fn step(
        &mut self,
        alloc: Global,
        loaded: &Loaded,
        matchers: &mut Matchers,
    ) -> Result<(), Stop>
        ensures step { ComesTo (step_of (with_patterns matchers.old loaded.now) self.old) result self.new }
        ensures depth { self.old.calls_left < 2 ^ 32 }
        ensures same { matchers.new ≡ matchers.old }
    {
        let _calls_left = self.calls_left;
        let instrs = loaded.code.instrs();
        let pc = self.pc;
        if pc >= instrs.len() {
            return Err(Stop::Stuck);
        }
        self.pc = pc + 1;
        self.act(alloc, loaded, &instrs[pc], matchers)
    }
}
