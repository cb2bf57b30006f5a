//! What a run asks: the tables of the script, and the trace, which is also its log.
ghost use Rattle.std.specs.Prelude.{◌≡◌, [], IfOk};
ghost use Rattle.script_host.specs.Asking.{as_asked};
ghost use Rattle.host_meaning.specs.declared.ask.Asked.TheVariants.{Table as AsksTable};
ghost use Rattle.solo_run.specs.Objects.{fresh_tables};
ghost use Rattle.solo_run.specs.Running.{IsAnswered, tables_of};

use ht_core::{TabOp, Table, TableSpec};
use pv_values::Patterns;
use script_host::{Answer, Ask};
use sim_text::push_log;
use std::alloc::{AllocError as NoMemory, Global};

/// The tables, and the trace so far.
#[derive(Drop)]
pub(crate) struct Objects {
    pub(crate) tables: Vec<Table>,
    pub(crate) trace: Vec<u8>,
}

impl Objects {
    /// Tables of these specifications without items, and an empty trace.
    pub(crate) fn new(alloc: Global, specs: &[TableSpec]) -> Result<Objects, NoMemory>
        ensures tables { IfOk result (λ o. tables_of o ≡ fresh_tables specs.now) }
        ensures trace { IfOk result (λ o. o.trace.items ≡ []) }
    {
        let mut tables = Vec::new(alloc);
        for spec in specs {
            tables.push(Table::new(alloc, *spec)?)?;
        }
        Ok(Objects {
            tables,
            trace: Vec::new(alloc),
        })
    }

    /// Answers what a run asks at this moment, and shows it. What is for a transaction no run asks yet.
    pub(crate) fn answer(
        &mut self,
        alloc: Global,
        patterns: &Patterns,
        at: u64,
        ask: Ask,
    ) -> Result<Answer, NoMemory>
        ensures { IfOk result (λ a. IsAnswered patterns.now at self.old (as_asked ask []) a self.new) }
    {
        match ask {
            Ask::Table { table, op } => self.operate(alloc, patterns, at, table, op),
            Ask::Log { text } => {
                push_log(alloc, &mut self.trace, at, text.bytes())?;
                Ok(Answer::Noted)
            }
            _ => Err(NoMemory),
        }
    }

    /// Does an operation on the table of this number.
    fn operate(
        &mut self,
        alloc: Global,
        patterns: &Patterns,
        at: u64,
        number: u32,
        op: TabOp,
    ) -> Result<Answer, NoMemory>
        ensures { IfOk result (λ a. IsAnswered patterns.now at self.old (AsksTable number op) a self.new) }
    {
        let Some(table) = self.tables.get_mut(number as usize) else {
            return Err(NoMemory);
        };
        let reply = table.apply(alloc, op, patterns, at)?;
        Ok(Answer::Table(reply))
    }
}
