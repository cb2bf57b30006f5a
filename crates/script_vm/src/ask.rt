//! What a run asks, looked at where it lies.

ghost use Rattle.std.specs.Prelude.{◌≡◌, IfOk};
ghost use Rattle.cfg_tree.specs.Meaning.{item_of};
ghost use Rattle.cfg_code.specs.Machine.{no_ask};
ghost use Rattle.script_vm.specs.Asking.{shown_variable, shown_ask};

use cfg_tree::TableUse;
use pv_values::{Func, HostAsk, Key, PvUse, Text, Val, Vals};
use std::alloc::{AllocError as NoMemory, Global};

/// An ask of a run: the variable and the function lie in the script's code, the key, the value and the
/// arguments in the run.
#[derive(Clone, Copy)]
pub enum AskView<'a> {
    Read(VariableView<'a>),
    Write(VariableView<'a>, &'a Val),
    /// A function with its literal arguments, and the values of its expanded ones.
    Call(&'a Func, &'a [Val]),
}

/// A variable that isn't the run's own.
#[derive(Clone, Copy)]
pub enum VariableView<'a> {
    Host(&'a PvUse),
    /// A use of the table of this number, under this key.
    Item(TableUse, u32, &'a [u8]),
    /// `$null`, where nothing is asked.
    Null,
}

impl AskView<'_> {
    /// What stands for no ask.
    pub(crate) fn nothing<'a>() -> AskView<'a>
        ensures { shown_ask result ≡ no_ask }
    {
        AskView::Read(VariableView::Null)
    }

    /// A copy of the ask.
    pub fn copied(self, alloc: Global) -> Result<HostAsk, NoMemory>
        ensures { IfOk result (λ ask. ask ≡ shown_ask self.entry) }
    {
        match self {
            AskView::Read(variable) => Ok(HostAsk::Read(variable.copied(alloc)?)),
            AskView::Write(variable, value) => {
                let variable = variable.copied(alloc)?;
                Ok(HostAsk::Write(variable, value.copy(alloc)?))
            }
            AskView::Call(function, arguments) => {
                let function = function.copy(alloc)?;
                Ok(HostAsk::Call(function, Vals::copy_of(alloc, arguments)?))
            }
        }
    }
}

impl VariableView<'_> {
    /// A copy of the variable.
    pub fn copied(self, alloc: Global) -> Result<PvUse, NoMemory>
        ensures { IfOk result (λ variable. variable ≡ shown_variable self.entry) }
    {
        match self {
            VariableView::Host(variable) => variable.copy(alloc),
            VariableView::Null => Ok(PvUse::Null),
            VariableView::Item(way, table, key) => {
                let key = Key::of(Text::from_slice(alloc, key)?);
                Ok(item(way, table, key))
            }
        }
    }
}

/// The item of a table under a key.
fn item(way: TableUse, table: u32, key: Key) -> PvUse
    ensures { result ≡ item_of way table key }
{
    match way {
        TableUse::Item => PvUse::Item(table, key),
        TableUse::Seconds => PvUse::ItemSeconds(table, key),
        TableUse::Increment => PvUse::ItemIncrement(table, key),
        TableUse::Decrement => PvUse::ItemDecrement(table, key),
    }
}
