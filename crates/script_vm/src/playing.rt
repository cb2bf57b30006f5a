//! A whole run on a list of answers.

ghost use Rattle.std.specs.Prelude.{◌≡◌, IfOk};
ghost use Rattle.cfg_tree.specs.Meaning.{meaning};
ghost use Rattle.cfg_tree.specs.declared.script.Script.{Script};
ghost use Rattle.cfg_code.specs.Follows.{Stands};
ghost use Rattle.script_vm.specs.Play.{IsPlayed};

use crate::run::{Run, Went};
use cfg_code::Loaded;
use pv_values::{Env, HostAnswer, HostAsk, How};
use std::alloc::{AllocError as NoMemory, Global};

/// What a run comes to.
#[derive(Debug, Drop)]
pub enum Played {
    /// It needs an answer to this.
    Needs(HostAsk),
    /// It has ended, with these variables, after so many answers.
    Ended(Env, How, usize),
    NoMemory,
}

/// A run of a block on these answers comes to exactly what the script means, where the code stands for
/// a script.
pub fn play(alloc: Global, loaded: &Loaded, block: u32, env: Env, answers: &[HostAnswer]) -> Played
    ensures { (script : Script) → Stands loaded.now script → IsPlayed (meaning script block env answers.now) answers.now result }
{
    let Ok(mut matchers) = loaded.patterns.matchers(alloc) else {
        return Played::NoMemory;
    };
    let Ok(begun) = Run::begin(alloc, loaded, block, env) else {
        return Played::NoMemory;
    };
    let mut run = begun;
    let mut answer = HostAnswer::Start;
    let mut taken = 0;
    'answers: loop {
        match run.advance(alloc, loaded, answer, &mut matchers) {
            Went::Asks => {
                if taken >= answers.len() {
                    let Ok(ask) = run.asked(loaded).copied(alloc) else {
                        return Played::NoMemory;
                    };
                    return Played::Needs(ask);
                }
                let Ok(copy) = answer_copy(alloc, &answers[taken]) else {
                    return Played::NoMemory;
                };
                answer = copy;
                taken += 1;
            }
            Went::Ended => {
                let (env, how) = run.close(alloc);
                return Played::Ended(env, how, taken);
            }
            Went::NoMemory => return Played::NoMemory,
        }
    }
}

fn answer_copy(alloc: Global, answer: &HostAnswer) -> Result<HostAnswer, NoMemory>
    ensures { IfOk result (λ a. a ≡ answer.now) }
{
    match answer {
        HostAnswer::Start => Ok(HostAnswer::Start),
        HostAnswer::Value(v) => Ok(HostAnswer::Value(v.copy(alloc)?)),
        HostAnswer::Written => Ok(HostAnswer::Written),
        HostAnswer::Code(n) => Ok(HostAnswer::Code(*n)),
    }
}
