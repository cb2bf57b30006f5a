//! The values that a script computes with, its variables and functions by name, and what a run of it
//! asks and is answered.
//!
//! The rules are in `specs/`: `Values` has the operators, the truth, the number and the text of a
//! value; `Kinds` has the blocks in which a function may stand and a variable may be assigned;
//! `Matching` says what a pattern matches.
//!
//! [`Val`] is the main type. A value is made by its variant, a text by [`Text::of`] or [`Text::from_slice`]; then it is
//! read, by [`truth`], [`as_int`] and [`as_text`], or computed with, by [`binary`] (which copies what it is given) and
//! [`operate`] (which takes it over); [`Vals`] is a list of values. `"a" + 5 == "a5"`, which is `1`:
//!
//! ```
//! let text = Val::Text(Text::from_slice(alloc, b"a")?);
//! let whole = operate(alloc, BinOp::Add, text, Val::Int(5))?;
//! let wanted = Val::Text(Text::from_slice(alloc, b"a5")?);
//! let same = binary(alloc, BinOp::Eq, &whole, &wanted)?;
//! prove!(truth(&same));
//! ```
//!
//! A pattern is built once, by [`Pattern::new`]; [`Pattern::is_match`] tries it once, and [`Pattern::matcher`] gives a
//! [`PatternMatcher`] for many texts.
#![tactic(auto)]

mod block;
mod function;
mod function_name;
mod matcher;
mod number;
mod operator;
mod pattern;
mod pattern_text;
mod refusal;
mod run;
mod table;
mod text;
mod value;
mod variable;

pub use block::BlockKind;
pub use function::Func;
pub use function_name::{Blocks, FuncName};
pub use matcher::{Matchers, PatternMatcher};
pub use number::text_number;
pub use operator::{BinOp, LONGEST_TEXT, binary, bit_value, is_same, operate, sum, text_value};
pub use pattern::{Pattern, PatternFault, Patterns};
pub use pattern_text::PatternText;
pub use refusal::{Place, ScriptFault};
pub use run::{Env, HostAnswer, HostAsk, How};
pub use table::{Key, TableSpec};
pub use text::Text;
pub use value::{Val, Vals, as_int, as_text, into_text, truth};
pub use variable::{PvUse, Transformation};

#[cfg(test)]
mod tests;
