//! Variables: those of tables are asked outside, and the others are read and assigned in the data.
ghost use Rattle.std.specs.Prelude.{◌≡◌, IfOk, OnErr, Some, None, ℕ};
ghost use Rattle.cfg_tree.specs.Meaning.{item_of};
ghost use Rattle.script_vm.specs.Asking.{shown_variable};
ghost use Rattle.host_meaning.specs.Rows.{read_row, read_of, write_row};
ghost use Rattle.host_meaning.specs.Run.{Around};
ghost use Rattle.script_host.specs.Lending.{around_of, IsRead};
ghost use Rattle.script_host.specs.Rows.{IsRowOf, with_blocks};

use crate::ask::Ask;
use crate::lent::Lent;
use crate::row::{Row, Wait};
use cfg_tree::TableUse;
use ht_core::TabOp;
use message_functions::is_myself;
use pv_table::{Facts, read_pv, write_pv};
use pv_values::{HostAnswer, Key, PvUse, Text, Val, as_int, bit_value};
use script_vm::VariableView;
use std::alloc::{AllocError as NoMemory, Global};

/// The row of a variable that is read.
pub(crate) fn read(
    alloc: Global,
    lent: &Lent<'_>,
    facts: &Facts,
    variable: VariableView<'_>,
) -> Result<Row, NoMemory>
    requires reads { IsRead lent.now }
    ensures { IfOk result (λ r. IsRowOf (read_row (around_of lent.now) (shown_variable variable.entry)) facts.now r facts.now) }
{
    match variable {
        VariableView::Host(x) => read_host(alloc, lent, facts, x),
        VariableView::Item(way, table, key) => {
            let key = Key::of(Text::from_slice(alloc, key)?);
            Ok(read_item(way, table, key))
        }
        VariableView::Null => Ok(Row::Tells(HostAnswer::Value(Val::Null))),
    }
}

/// The same of a variable that the script's code names.
fn read_host(
    alloc: Global,
    lent: &Lent<'_>,
    facts: &Facts,
    variable: &PvUse,
) -> Result<Row, NoMemory>
    requires reads { IsRead lent.now }
    ensures { IfOk result (λ r. IsRowOf (read_row (around_of lent.now) variable.now) facts.now r facts.now) }
{
    match variable {
        PvUse::Item(table, key) => Ok(read_item(TableUse::Item, *table, key.copy(alloc)?)),
        PvUse::ItemSeconds(table, key) => {
            Ok(read_item(TableUse::Seconds, *table, key.copy(alloc)?))
        }
        PvUse::ItemIncrement(table, key) => {
            Ok(read_item(TableUse::Increment, *table, key.copy(alloc)?))
        }
        PvUse::ItemDecrement(table, key) => {
            Ok(read_item(TableUse::Decrement, *table, key.copy(alloc)?))
        }
        PvUse::Myself => {
            let loaded = lent.loaded;
            let ours = is_myself(facts, lent.settings, &loaded.parameters);
            Ok(Row::Tells(HostAnswer::Value(bit_value(ours))))
        }
        _ => {
            let value = read_fact(alloc, lent, facts, variable)?;
            Ok(Row::Tells(HostAnswer::Value(value)))
        }
    }
}

/// What a variable reads that is in the message or in the facts.
fn read_fact(
    alloc: Global,
    lent: &Lent<'_>,
    facts: &Facts,
    variable: &PvUse,
) -> Result<Val, NoMemory>
    requires reads { IsRead lent.now }
    ensures { IfOk result (λ v. (blocks : ℕ) → v ≡ read_of (around_of lent.now).received (with_blocks facts.now blocks) variable.now) }
{
    match lent.message {
        Some(m) => read_pv(alloc, m.bytes, m.message, facts, variable),
        None => Ok(Val::Null),
    }
}

/// The ask to read an item, or to count it.
fn read_item(way: TableUse, table: u32, key: Key) -> Row
    ensures { (a : Around) (facts : Facts) → IsRowOf (read_row a (item_of way table key)) facts result facts }
{
    let op = match way {
        TableUse::Item => TabOp::Get(key),
        TableUse::Seconds => TabOp::Left(key),
        TableUse::Increment => TabOp::Inc(key),
        TableUse::Decrement => TabOp::Dec(key),
    };
    Row::Asks(Ask::Table { table, op }, Wait::Value)
}

/// The row of a variable that is assigned. Out of memory the facts stay as they were.
pub(crate) fn write(
    alloc: Global,
    facts: &mut Facts,
    variable: VariableView<'_>,
    value: &Val,
) -> Result<Row, NoMemory>
    ensures row { IfOk result (λ r. IsRowOf (write_row (shown_variable variable.entry) value.now) facts.old r facts.new) }
    ensures err { OnErr result (facts.new ≡ facts.old) }
{
    match variable {
        VariableView::Host(x) => write_host(alloc, facts, x, value),
        VariableView::Item(way, table, key) => {
            let key = Key::of(Text::from_slice(alloc, key)?);
            write_item(alloc, way, table, key, value)
        }
        VariableView::Null => Ok(Row::Tells(HostAnswer::Written)),
    }
}

/// The same of a variable that the script's code names.
fn write_host(
    alloc: Global,
    facts: &mut Facts,
    variable: &PvUse,
    value: &Val,
) -> Result<Row, NoMemory>
    ensures row { IfOk result (λ r. IsRowOf (write_row variable.now value.now) facts.old r facts.new) }
    ensures err { OnErr result (facts.new ≡ facts.old) }
{
    match variable {
        PvUse::Item(table, key) => {
            write_item(alloc, TableUse::Item, *table, key.copy(alloc)?, value)
        }
        PvUse::ItemSeconds(table, key) => {
            write_item(alloc, TableUse::Seconds, *table, key.copy(alloc)?, value)
        }
        _ => {
            write_pv(alloc, facts, variable, value.copy(alloc)?)?;
            Ok(Row::Tells(HostAnswer::Written))
        }
    }
}

/// The ask to give an item a value, or seconds. The variables that count are never assigned.
fn write_item(
    alloc: Global,
    way: TableUse,
    table: u32,
    key: Key,
    value: &Val,
) -> Result<Row, NoMemory>
    ensures { IfOk result (λ r. (facts : Facts) → IsRowOf (write_row (item_of way table key) value.now) facts r facts) }
{
    let op = match way {
        TableUse::Item => TabOp::Set(key, value.copy(alloc)?),
        TableUse::Seconds => match as_int(value) {
            Some(n) => TabOp::Limit(key, n),
            None => return Ok(Row::Tells(HostAnswer::Written)),
        },
        TableUse::Increment | TableUse::Decrement => return Ok(Row::Tells(HostAnswer::Written)),
    };
    Ok(Row::Asks(Ask::Table { table, op }, Wait::Written))
}
