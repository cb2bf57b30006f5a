//! Blocks, and whole scripts.

ghost use Rattle.std.specs.Prelude.{◌≡◌, IfOk, IsTrue, length};
ghost use Rattle.std.specs.List.{list_all};
ghost use Rattle.cfg_tree.specs.Closed.{Names, closed_block};
ghost use Rattle.cfg_code.specs.Closed.{closed_code};
ghost use Rattle.cfg_code.specs.Code.{text_of_block};
ghost use Rattle.cfg_code.specs.Follows.{Stands};
ghost use Rattle.cfg_compile.specs.Blocks.{StandAtEntries};

use crate::stmt::list_text;
use crate::text::{ended, one};
use cfg_code::laws::{the_code_of_a_block_is_sound, the_code_of_a_closed_block_is_closed};
use cfg_code::{Code, Instr, Loaded};
use cfg_tree::{ClosedScript, Script, Stmt};
use sqlite_items::Items;
use std::alloc::{AllocError as NoMemory, Global};

/// The code of a script. It stands for the script. There is none only where it is out of memory, which is also said
/// where the code of one statement has 2 ^ 31 instructions.
///
/// ```
/// let script = check(alloc, raw)?;
/// let loaded = compile(alloc, script)?;
/// ```
pub fn compile(alloc: Global, script: ClosedScript) -> Result<Loaded, NoMemory>
    ensures { IfOk result (λ loaded. Stands loaded script) }
{
    let Script {
        blocks,
        request,
        reply,
        vars,
        patterns,
        tables,
        parameters,
    } = script.into_script();
    let code = blocks_code(alloc, blocks.as_slice())?;
    Ok(Loaded {
        code,
        request,
        reply,
        vars,
        patterns,
        tables,
        parameters,
    })
}

/// The code of all blocks: an empty block, which stands for each that isn't there, and then each of
/// them.
fn blocks_code(alloc: Global, blocks: &[Items<Stmt>]) -> Result<Code, NoMemory>
    ensures stands { IfOk result (λ code. StandAtEntries code.instrs code.entries blocks.now) }
    ensures count { IfOk result (λ code. length code.entries ≡ length blocks.now) }
    ensures closed { IfOk result (λ code. (names : Names) → IsTrue (list_all (closed_block names) blocks.now) → IsTrue (closed_code names code.instrs)) }
{
    the_code_of_a_block_is_sound();
    the_code_of_a_closed_block_is_closed();
    let mut instrs = one(alloc, Instr::EndBlock)?;
    let mut entries = Items::new(alloc);
    for block in blocks {
        entries.push(instrs.len())?;
        instrs.append(block_text(alloc, block.as_slice())?)?;
    }
    Ok(Code::new(instrs, entries))
}

fn block_text(alloc: Global, block: &[Stmt]) -> Result<Items<Instr>, NoMemory>
    ensures { IfOk result (λ text. text ≡ text_of_block block.now) }
{
    let text = list_text(alloc, block)?;
    ended(text, Instr::EndBlock)
}
