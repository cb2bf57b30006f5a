//! The row of an ask: what the run is told at once, or what is asked outside.
ghost use Rattle.std.specs.Prelude.{◌≡◌, IfOk, OnErr};
ghost use Rattle.script_vm.specs.Asking.{shown_ask};
ghost use Rattle.host_meaning.specs.Rows.{row};
ghost use Rattle.script_host.specs.Lending.{around_of, IsRead, state_of};
ghost use Rattle.pv_table.specs.declared.facts.RunData.{RunData as RunValue};
ghost use Rattle.host_meaning.specs.Run.{Around, RowCourse};
ghost use Rattle.script_host.specs.Rows.{IsRow, IsGoing, AsksBelow, most_asks};

use crate::ask::Ask;
use crate::calls::call;
use crate::lent::Lent;
use crate::variables::{read, write};
use message_functions::TextRoom;
use pv_table::RunData;
use pv_values::HostAnswer;
use script_vm::AskView;
use std::alloc::{AllocError as NoMemory, Global};

/// What a row comes to that asks once at most.
#[derive(Drop)]
pub(crate) enum Row {
    /// The run is told this.
    Tells(HostAnswer),
    /// This is asked outside, and waited for.
    Asks(Ask, Wait),
}

/// What such a row waits for.
#[derive(Clone, Copy, Debug, PartialEq, Eq)]
pub enum Wait {
    /// To begin.
    Start,
    /// The value of a variable of a table.
    Value,
    /// An assignment to one.
    Written,
    /// How many keys were taken out.
    Counted,
    /// A text for the log.
    Noted,
    /// The transaction of an INVITE.
    Found,
}

/// What a row comes to, or what is left of one that waited.
#[derive(Drop)]
pub(crate) enum Going {
    /// The run is told this.
    Tells(HostAnswer),
    /// This is asked outside, and waited for.
    Asks(Ask, Waiting),
}

/// What a run waits for.
#[derive(Clone, Copy, Debug, PartialEq, Eq)]
pub enum Waiting {
    /// The answer to the only ask of a row.
    Row(Wait),
    /// A block for a request that is relayed: so many are wanted behind it, and so many were taken before.
    Block { more: u8, taken: u8 },
    /// That a block has gone back: so many go back behind it, and then the code is -2.
    GivenBack { left: u8 },
}

impl Row {
    /// The run is told this code.
    pub(crate) fn code(code: i64) -> Row
        ensures { result ≡ Row.Tells (HostAnswer.Code code) }
    {
        Row::Tells(HostAnswer::Code(code))
    }
}

impl Going {
    /// The run is told this code.
    pub(crate) fn code(code: i64) -> Going
        ensures { result ≡ Going.Tells (HostAnswer.Code code) }
    {
        Going::Tells(HostAnswer::Code(code))
    }

    /// The same as a row that asks once at most.
    pub(crate) fn once(row: Row) -> Going
        ensures row { (a : Around) (course : RowCourse) (d : RunValue) → IsRow course row (state_of d) → IsGoing a course result d }
        ensures below { AsksBelow most_asks result }
    {
        match row {
            Row::Tells(answer) => Going::Tells(answer),
            Row::Asks(ask, wait) => Going::Asks(ask, Waiting::Row(wait)),
        }
    }
}

/// The row of what a run asks. Out of memory the data stay as they were.
pub(crate) fn row_of(
    alloc: Global,
    lent: &Lent<'_>,
    room: &mut TextRoom,
    state: &mut RunData,
    ask: AskView<'_>,
) -> Result<Going, NoMemory>
    requires reads { IsRead lent.now }
    ensures row { IfOk result (λ g. IsGoing (around_of lent.now) (row (around_of lent.now) (shown_ask ask.entry) (state_of state.old)) g state.new) }
    ensures below { IfOk result (λ g. AsksBelow most_asks g) }
    ensures err { OnErr result (state_of state.new ≡ state_of state.old) }
{
    match ask {
        AskView::Read(variable) => {
            let row = read(alloc, lent, &state.facts, variable)?;
            Ok(Going::once(row))
        }
        AskView::Write(variable, value) => {
            let row = write(alloc, &mut state.facts, variable, value)?;
            Ok(Going::once(row))
        }
        AskView::Call(function, values) => call(alloc, lent, room, state, function, values),
    }
}
