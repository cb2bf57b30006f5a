//! Code, and a script as code.

ghost use Rattle.std.specs.Prelude.{◌≡◌, slice_index_or};

use crate::instr::Instr;
use cfg_tree::Parameters;
use pv_values::{Patterns, TableSpec};
use sqlite_items::Items;
use std::marker::Model;

/// The instructions of all blocks, and the place where each block begins. Each place that a jump can
/// reach is in the code, and no instruction takes more from the operand stack than stands there.
#[derive(Drop)]
pub struct Code {
    instrs: Items<Instr>,
    entries: Items<usize>,
}

impl Model for Code {
    ghost use Rattle.cfg_code.specs.Flat.{Flat};
    ghost use Rattle.cfg_code.specs.Sound.{AllSound};

    ghost Value = { Flat };

    ghost view = { λ c. record { instrs = c.instrs; entries = c.entries } };

    ghost invariant = { λ c. AllSound c.instrs c.entries };
}

impl Code {
    ghost use Rattle.cfg_code.specs.Sound.{AllSound};

    /// Code of these instructions, whose blocks begin at these places.
    pub fn new(instrs: Items<Instr>, entries: Items<usize>) -> Code
        requires { AllSound instrs entries }
        ensures { result ≡ record { instrs = instrs; entries = entries } }
    {
        Code { instrs, entries }
    }

    /// The instructions, by their places.
    pub fn instrs(&self) -> &[Instr]
        ensures { result.now ≡ self.now.instrs }
    {
        self.instrs.as_slice()
    }

    /// The place where the block of this number begins. A block that isn't there is the empty one at
    /// place 0.
    pub fn entry(&self, block: u32) -> usize
        ensures { result ≡ slice_index_or self.now.entries block 0 }
    {
        let entries = self.entries.as_slice();
        let block = block as usize;
        if block < entries.len() {
            entries[block]
        } else {
            0
        }
    }
}

/// A script as code. Every number in it names something that is there: a block, a pattern, a table or a
/// name of `$var`.
///
/// ```
/// // request_route { t_relay(); }
/// loaded.code.instrs()[loaded.code.entry(loaded.request)]; // CountStatement
/// loaded.code.instrs()[loaded.code.entry(loaded.request) + 1]; // CallFunction(TRelay)
/// ```
#[derive(Drop)]
pub struct Loaded {
    pub code: Code,
    /// The number of `request_route`.
    pub request: u32,
    /// The number of `reply_route`, where there is one.
    pub reply: Option<u32>,
    /// How many names of `$var` there are.
    pub vars: u32,
    pub patterns: Patterns,
    pub tables: Items<TableSpec>,
    pub parameters: Parameters,
}

impl Model for Loaded {
    ghost use Rattle.cfg_code.specs.Flat.{FlatScript};
    ghost use Rattle.cfg_code.specs.Closed.{IsClosedCode};

    ghost Value = { FlatScript };

    ghost view = { λ l. record {
      code = l.code;
      request = l.request;
      reply = l.reply;
      vars = l.vars;
      patterns = l.patterns;
      tables = l.tables;
      parameters = l.parameters;
    } };

    ghost invariant = { λ l. IsClosedCode (record {
      code = l.code;
      request = l.request;
      reply = l.reply;
      vars = l.vars;
      patterns = l.patterns;
      tables = l.tables;
      parameters = l.parameters;
    }) };
}

impl Loaded {
    ghost use Rattle.cfg_code.specs.Closed.{IsClosedCode};

    /// Each number in it names something that is there.
    pub fn is_closed(&self)
        ensures { IsClosedCode self.now }
    {
        let _code = &self.code;
    }
}
