//! Scripts as texts: their trees, and where those stand that have none. What is expected is worked out by hand from the
//! grammar.

mod broken;
mod depth;
mod shown;
mod trees;

use cfg_lex::lex;
use cfg_parse::parse;
use cfg_tree::RawScript;
use pv_values::ScriptFault;
use std::alloc::Global;

/// The tree of a text, or why there is none.
fn read(alloc: Global, text: &[u8]) -> Result<RawScript, ScriptFault> {
    let tokens = lex(alloc, text)?;
    parse(alloc, text, tokens.as_slice())
}
