//! The grammar and its reading functions: what is read is what is derived, and there is one tree at most.

ghost use Rattle.std.specs.Prelude.{◌≡◌, List, Some};
ghost use Rattle.cfg_tree.specs.declared.token.Token.{Token};
ghost use Rattle.cfg_tree.specs.declared.raw.RawItem.{RawItem};
ghost use Rattle.cfg_tree.specs.Grammar.{Derives};
ghost use Rattle.cfg_parse.specs.Script.{script_at};

/// What the grammar derives is read.
pub fn reads()
    ensures { (tokens : List Token) → (items : List RawItem) → Derives tokens items → script_at tokens ≡ Some items }
{}

/// What is read is derived by the grammar.
pub fn derives()
    ensures { (tokens : List Token) → (items : List RawItem) → script_at tokens ≡ Some items → Derives tokens items }
{}

/// The grammar derives at most one tree from a list of tokens.
pub fn one_tree_at_most()
    ensures { (tokens : List Token) → (one : List RawItem) → (other : List RawItem) → Derives tokens one → Derives tokens other → one ≡ other }
{}
