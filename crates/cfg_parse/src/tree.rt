//! The tree of the tokens of a script.

ghost use Rattle.std.specs.Prelude.{length, IfOk, IfErr};
ghost use Rattle.cfg_tree.specs.Checks.{IsTreeOf, IsUnderivable};
ghost use Rattle.cfg_tree.specs.declared.raw.RawScript.{RawScript};
ghost use Rattle.cfg_parse.specs.Answer.{IsTheOnly, IsSyntaxOf, GivesTree, GivesNone};

use crate::fault::Fault;
use crate::script::script;
use cfg_tree::{RawScript, RefusalKind, Token};
use pv_values::ScriptFault;
use std::alloc::Global;

/// The tree of the tokens of a text, or the refusal `Syntax`, where the grammar derives none from them.
///
/// ```
/// let text = b"request_route { exit; }";
/// let tokens = lex(alloc, text)?;
/// let tree = parse(alloc, text, &tokens)?; // one block with one statement
/// parse(alloc, text, &tokens[..1]); // refused: Syntax, at the text's end
/// ```
///
/// A tree that is given is the one that the grammar derives from these tokens, and there is no other. Where a tree
/// exists it is given, or it is out of memory; where none exists `Syntax` is given, or it is out of memory. The place of a `Syntax` is that of the first token with which the tokens up to it begin no list of tokens
/// that the grammar derives, and the empty place at the text's end where no token is such (the place is tested and
/// not proved).
///
/// The time is linear in the number of tokens. The stack holds at most 64 statements inside one another, with
/// 32 levels of an expression.
pub fn parse(alloc: Global, text: &[u8], tokens: &[Token]) -> Result<RawScript, ScriptFault>
    ensures tree { IfOk result (IsTreeOf tokens.now (length text.now)) }
    ensures only { IfOk result (IsTheOnly tokens.now (length text.now)) }
    ensures refused { IfErr result (IsSyntaxOf tokens.now (length text.now)) }
    ensures exists { (raw : RawScript) → IsTreeOf tokens.now (length text.now) raw → GivesTree raw result }
    ensures none { IsUnderivable tokens.now (length text.now) → GivesNone result }
{
    let end = text.len();
    match script(alloc, tokens, end) {
        Ok(items) => Ok(RawScript { items, end }),
        Err(Fault::Syntax(at)) => Err(ScriptFault::Refused {
            kind: RefusalKind::Syntax.number(),
            at,
        }),
        Err(Fault::NoMemory) => Err(ScriptFault::NoMemory),
    }
}
