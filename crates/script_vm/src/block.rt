//! What each instruction does: jumps, counts, loops and blocks.

ghost use Rattle.std.specs.Prelude.{◌≡◌, ◌+◌, ◌<◌, ◌^◌, [], ◌∷◌, MatchOption};
ghost use Rattle.cfg_code.specs.Machine.{moved, over, jump, exiting_on_zero, calling_block, jumping_if_false_or_pop, jumping_if_true_or_pop, jumping_if_false, casing, counting, beginning_loop, beginning_round, looping_back, ending_loop, breaking, leave, returning};
ghost use Rattle.script_vm.specs.Running.{ComesTo};

use crate::operand::{ending, returned_code};
use crate::run::Run;
use crate::stop::Stop;
use cfg_code::{Frame, Wait};
use pv_values::{How, Val, is_same, truth};

impl Run {
    /// Ends the run.
    pub(crate) fn over(&mut self, how: How) -> Result<(), Stop>
        ensures { ComesTo (over how self.old) result self.new }
    {
        self.wait = Wait::Over(how);
        Err(Stop::Over)
    }

    /// Goes on after so many instructions.
    pub(crate) fn jump(&mut self, n: u32) -> Result<(), Stop>
        requires { self.old.pc < 2 ^ 63 }
        ensures { ComesTo (jump n self.old) result self.new }
    {
        self.pc += n as usize;
        Ok(())
    }

    pub(crate) fn exit_on_zero(&mut self) -> Result<(), Stop>
        ensures { ComesTo (exiting_on_zero self.old.env.rc self.old) result self.new }
    {
        if self.env.rc == 0 {
            return self.over(How::Exit);
        }
        Ok(())
    }

    /// Calls the block that begins there.
    pub(crate) fn call_block(&mut self, to: usize) -> Result<(), Stop>
        ensures { ComesTo (calling_block self.old.calls_left to self.old) result self.new }
    {
        if self.calls_left == 0 {
            return self.over(How::DepthLimit);
        }
        self.frames.push(Frame::Back {
            pc: self.pc,
            calls_left: self.calls_left,
        })?;
        self.calls_left -= 1;
        self.pc = to;
        Ok(())
    }

    pub(crate) fn jump_if_false(&mut self, n: u32) -> Result<(), Stop>
        requires { self.old.pc < 2 ^ 63 }
        ensures { ComesTo (jumping_if_false n self.old) result self.new }
    {
        let v = self.pop()?;
        if truth(&v) {
            return Ok(());
        }
        self.jump(n)
    }

    pub(crate) fn jump_if_false_or_pop(&mut self, n: u32) -> Result<(), Stop>
        requires { self.old.pc < 2 ^ 63 }
        ensures { ComesTo (jumping_if_false_or_pop n self.old) result self.new }
    {
        let v = self.pop()?;
        if truth(&v) {
            return Ok(());
        }
        self.push(v)?;
        self.jump(n)
    }

    pub(crate) fn jump_if_true_or_pop(&mut self, n: u32) -> Result<(), Stop>
        requires { self.old.pc < 2 ^ 63 }
        ensures { ComesTo (jumping_if_true_or_pop n self.old) result self.new }
    {
        let v = self.pop()?;
        if !truth(&v) {
            return Ok(());
        }
        self.push(v)?;
        self.jump(n)
    }

    pub(crate) fn case(&mut self, label: &Val, n: u32) -> Result<(), Stop>
        requires { self.old.pc < 2 ^ 63 }
        ensures { ComesTo (casing label.now n self.old) result self.new }
    {
        let v = self.pop()?;
        if is_same(&v, label) {
            return Ok(());
        }
        self.push(v)?;
        self.jump(n)
    }

    /// Counts a statement, or ends the run where it is one too many.
    pub(crate) fn count_statement(&mut self) -> Result<(), Stop>
        ensures { ComesTo (counting self.old.statements_left self.old moved) result self.new }
    {
        if self.statements_left == 0 {
            return self.over(How::ActionLimit);
        }
        self.statements_left -= 1;
        Ok(())
    }

    pub(crate) fn begin_loop(&mut self, max_rounds: u32, n: u32) -> Result<(), Stop>
        requires { self.old.pc < 2 ^ 63 }
        ensures { ComesTo (beginning_loop max_rounds n self.old) result self.new }
    {
        self.frames.push(Frame::Loop {
            rounds_left: max_rounds,
            start: self.pc,
            exit: self.pc + n as usize,
        })?;
        Ok(())
    }

    pub(crate) fn begin_round(&mut self) -> Result<(), Stop>
        ensures { ComesTo (beginning_round self.old.frames self.old) result self.new }
    {
        let Some(
            Frame::Loop {
                rounds_left,
                start,
                exit,
            },
        ) = self.frames.pop()
        else {
            return Err(Stop::Stuck);
        };
        self.frames.push(Frame::Loop {
            rounds_left: rounds_left.saturating_sub(1),
            start,
            exit,
        })?;
        if rounds_left == 0 {
            return self.over(How::LoopLimit);
        }
        Ok(())
    }

    /// Goes to the beginning of the loop.
    fn repeat(&mut self) -> Result<(), Stop>
        ensures { ComesTo (looping_back self.old.frames self.old) result self.new }
    {
        let Some(
            Frame::Loop {
                rounds_left,
                start,
                exit,
            },
        ) = self.frames.pop()
        else {
            return Err(Stop::Stuck);
        };
        self.frames.push(Frame::Loop {
            rounds_left,
            start,
            exit,
        })?;
        self.pc = start;
        Ok(())
    }

    /// Counts a statement, the loop's next test, and goes there.
    pub(crate) fn loop_back(&mut self) -> Result<(), Stop>
        ensures { ComesTo (counting self.old.statements_left self.old (λ r. looping_back r.frames r)) result self.new }
    {
        if self.statements_left == 0 {
            return self.over(How::ActionLimit);
        }
        self.statements_left -= 1;
        self.repeat()
    }

    pub(crate) fn end_loop(&mut self) -> Result<(), Stop>
        ensures { ComesTo (ending_loop self.old.frames self.old) result self.new }
    {
        match self.frames.pop() {
            Some(Frame::Loop { .. }) => Ok(()),
            _ => Err(Stop::Stuck),
        }
    }

    /// Goes out of the loop or `switch`, or of the block.
    fn break_off(&mut self) -> Result<(), Stop>
        ensures { ComesTo (breaking self.old.frames self.old) result self.new }
    {
        match self.frames.pop() {
            Some(Frame::Loop { exit, .. }) => {
                self.pc = exit;
                Ok(())
            }
            Some(frame) => {
                self.frames.push(frame)?;
                self.leave(1, How::Normal)
            }
            None => self.leave(1, How::Normal),
        }
    }

    pub(crate) fn count_and_break(&mut self) -> Result<(), Stop>
        ensures { ComesTo (counting self.old.statements_left self.old (λ r. breaking r.frames r)) result self.new }
    {
        if self.statements_left == 0 {
            return self.over(How::ActionLimit);
        }
        self.statements_left -= 1;
        self.break_off()
    }

    /// Takes the topmost loop or block.
    fn pop_frame(&mut self) -> Option<Frame>
        ensures { MatchOption result ((self.old.frames ≡ []) × (self.new ≡ self.old)) (λ f. self.old ≡ record self.new { frames = f ∷ self.new.frames }) }
    {
        self.frames.pop()
    }

    /// Back with a code to the block that waits, or to the end of the run.
    pub(crate) fn leave(&mut self, code: i64, how: How) -> Result<(), Stop>
        ensures { ComesTo (leave self.old.frames code how self.old) result self.new }
    {
        while let Some(frame) = self.pop_frame() {
            if let Frame::Back { pc, calls_left } = frame {
                self.env.rc = code;
                self.pc = pc;
                self.calls_left = calls_left;
                return Ok(());
            }
        }
        self.over(how)
    }

    pub(crate) fn return_top(&mut self) -> Result<(), Stop>
        ensures { ComesTo (returning self.old) result self.new }
    {
        let v = self.pop()?;
        let code = returned_code(&v);
        self.leave(code, ending(code))
    }
}
