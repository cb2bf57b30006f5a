//! Instructions.

use cfg_tree::TableUse;
use pv_values::{BinOp, Func, PvUse, Transformation, Val};

/// One instruction. It takes values from the top of the operand stack and leaves one there, as said
/// at each. Then the next one is made, where nothing else is said. To *jump* by a number is to go on
/// after so many of the next instructions. What an instruction asks about lies on the stack, or among
/// the arguments, until the answer comes.
#[derive(Debug, Drop)]
pub enum Instr {
    /// Leaves this value.
    Push(Val),
    /// Leaves the value of `$var`, by the number of its name.
    Load(u32),
    /// Leaves `$rc`: the last code of a function or a route.
    LoadCode,
    /// Leaves 1 where `$rc` is above 0, and else 0.
    LoadSuccess,
    /// Takes a value, which `$var` of this name has then.
    Store(u32),
    /// Asks for a variable of the host, and leaves it.
    Read(PvUse),
    /// Takes a key, asks for the item of this table under it, and leaves that.
    ReadItem(TableUse, u32),
    /// Takes a value, and asks to write it to a variable of the host.
    Write(PvUse),
    /// Takes a value, and a key, and asks to write the value to the item of this table.
    WriteItem(TableUse, u32),
    /// Takes a value, and leaves what the transformation makes of it.
    Transform(Transformation),
    /// Takes a value, and a text or `$null` from below it, and leaves the text with the value's after
    /// it, as `+` does: `$null` where that is above 8,192 bytes, or was `$null` before.
    Concat,
    /// Takes a value, which is one more argument of the next call.
    PushArgument,
    /// Asks to call a function with the arguments so far. Its code is `$rc` then.
    CallFunction(Func),
    /// Ends the run as `exit` does where `$rc` is 0.
    ExitOnZero,
    /// Goes to where the block of this number begins, and comes back when that has ended, with its
    /// code as `$rc`. Ends the run where calls may not be nested deeper.
    CallBlock(u32),
    /// Takes the right operand, and the left one, and leaves what the operator gives.
    Binary(BinOp),
    /// Takes a value, and leaves 0 without its number.
    Negate,
    /// Takes a value, and leaves 0 where it is true, and else 1.
    Not,
    /// Takes a value, and leaves 1 where it is true, and else 0.
    ToBool,
    /// Takes a value, and leaves 1 where the pattern of this number matches in it, and else 0.
    Match(u32),
    /// Takes the value where it is true. Else leaves it, and passes so many instructions.
    JumpIfFalseOrPop(u32),
    /// Takes the value where it is false. Else leaves it, and passes so many instructions.
    JumpIfTrueOrPop(u32),
    /// Takes a value.
    Pop,
    /// Counts a statement, or ends the run where it would be one too many.
    CountStatement,
    /// Takes a value, and passes so many instructions where it is false.
    JumpIfFalse(u32),
    /// Passes so many instructions.
    Jump(u32),
    /// Takes the value where it equals this label. Else leaves it, and passes so many instructions.
    Case(Val, u32),
    /// Begins a loop or a `switch`, which ends after the so many next instructions.
    BeginLoop(u32),
    /// Begins a round of the loop, or ends the run where it would be one too many.
    BeginRound,
    /// Counts a statement, and goes to the loop's beginning.
    LoopBack,
    /// Ends the loop or `switch`.
    EndLoop,
    /// Counts a statement, and goes to the end of the loop or `switch`, or of the block.
    Break,
    /// Takes a value, and ends the block with it as its code.
    Return,
    /// Ends the run as `exit` does.
    Exit,
    /// Ends the run as `drop` does.
    Drop,
    /// Ends the block, with the code 1.
    EndBlock,
}
