//! Expressions, level by level.

ghost use Rattle.std.specs.Prelude.{◌≡◌, ◌∷◌, IfOk};
ghost use Rattle.std.specs.Option.{option_copied};
ghost use Rattle.cfg_parse.specs.Reader.{Reads, one};
ghost use Rattle.cfg_parse.specs.Exprs as spec;
ghost use Rattle.cfg_parse.specs.Nests.{ReadsUnary};

use crate::calls::{call, number, string, variable};
use crate::fault::Fault;
use crate::repeat::many;
use crate::tokens::Tokens;
use cfg_tree::{Keyword, Lexeme, Mark, RawExpr};
use pv_values::BinOp;
use sqlite_items::{Boxed, Items};
use std::alloc::{AllocError, Global};

/// An expression's depth is 32 at most, so 31 brackets and prefix operators may stand inside one another.
const ROOM: usize = 31;

/// `*`, `/`, `mod`
fn factor_operator(lexeme: Option<&Lexeme>) -> Option<BinOp>
    ensures { result ≡ spec.factor_operator (option_copied lexeme.entry) }
{
    match lexeme {
        Some(Lexeme::Mark(Mark::Times)) => Some(BinOp::Mul),
        Some(Lexeme::Mark(Mark::Divide)) => Some(BinOp::Div),
        Some(Lexeme::Keyword(Keyword::Mod)) => Some(BinOp::Rem),
        _ => None,
    }
}

/// `+`, `-`
fn term_operator(lexeme: Option<&Lexeme>) -> Option<BinOp>
    ensures { result ≡ spec.term_operator (option_copied lexeme.entry) }
{
    match lexeme {
        Some(Lexeme::Mark(Mark::Plus)) => Some(BinOp::Add),
        Some(Lexeme::Mark(Mark::Minus)) => Some(BinOp::Sub),
        _ => None,
    }
}

/// `==`, `!=`, `<`, `>`, `<=`, `>=`
fn comparison_operator(lexeme: Option<&Lexeme>) -> Option<BinOp>
    ensures { result ≡ spec.comparison_operator (option_copied lexeme.entry) }
{
    match lexeme {
        Some(Lexeme::Mark(Mark::Equal)) => Some(BinOp::Eq),
        Some(Lexeme::Mark(Mark::NotEqual)) => Some(BinOp::Ne),
        Some(Lexeme::Mark(Mark::Less)) => Some(BinOp::Lt),
        Some(Lexeme::Mark(Mark::Greater)) => Some(BinOp::Gt),
        Some(Lexeme::Mark(Mark::LessOrEqual)) => Some(BinOp::Le),
        Some(Lexeme::Mark(Mark::GreaterOrEqual)) => Some(BinOp::Ge),
        _ => None,
    }
}

/// `&&`, `and`
fn is_and(lexeme: Option<&Lexeme>) -> bool
    ensures { result ≡ spec.is_and (option_copied lexeme.entry) }
{
    match lexeme {
        Some(Lexeme::Mark(Mark::And) | Lexeme::Keyword(Keyword::And)) => true,
        _ => false,
    }
}

/// `||`, `or`
fn is_or(lexeme: Option<&Lexeme>) -> bool
    ensures { result ≡ spec.is_or (option_copied lexeme.entry) }
{
    match lexeme {
        Some(Lexeme::Mark(Mark::Or) | Lexeme::Keyword(Keyword::Or)) => true,
        _ => false,
    }
}

/// Operands of one level. One alone is itself.
fn chain(
    alloc: Global,
    first: RawExpr,
    links: Items<(BinOp, RawExpr)>,
) -> Result<RawExpr, AllocError>
    ensures { IfOk result (λ e. e ≡ spec.chain first links) }
{
    if links.is_empty() {
        return Ok(first);
    }
    Ok(RawExpr::Chain(Boxed::new(alloc, first)?, links))
}

/// The first operand, and those after it.
fn together(
    alloc: Global,
    first: RawExpr,
    more: Items<RawExpr>,
) -> Result<Items<RawExpr>, AllocError>
    ensures { IfOk result (λ all. all ≡ first ∷ more) }
{
    let mut all = Items::new(alloc);
    all.push(first)?;
    all.append(more)?;
    Ok(all)
}

/// `NUMBER | STRING | VAR | call`
#[tactic(auto, unfolding(crate::specs::Exprs::atom))]
pub fn atom(alloc: Global, tokens: &mut Tokens<'_>) -> Result<RawExpr, Fault>
    ensures { Reads (spec.atom tokens.old) result tokens.new }
{
    match tokens.first() {
        Some(Lexeme::Number(_)) => Ok(RawExpr::Number(number(tokens)?)),
        Some(Lexeme::String(_)) => Ok(RawExpr::String(string(alloc, tokens)?)),
        Some(Lexeme::Variable(_)) => Ok(RawExpr::Variable(variable(alloc, tokens)?)),
        _ => Ok(RawExpr::Call(call(alloc, tokens)?)),
    }
}

/// `==` is true, `!=` false.
#[tactic(auto, unfolding(crate::specs::Reader::one, crate::specs::Reader::first, crate::specs::Reader::next, crate::specs::Reader::passed))]
fn is_equal(tokens: &mut Tokens<'_>) -> Result<bool, Fault>
    ensures { Reads (one spec.is_equal_in tokens.old) result tokens.new }
{
    let is = match tokens.first() {
        Some(Lexeme::Mark(Mark::Equal)) => true,
        Some(Lexeme::Mark(Mark::NotEqual)) => false,
        _ => return Err(tokens.refuse()),
    };
    tokens.pass();
    Ok(is)
}

/// `"uri" ( "==" | "!=" ) "myself"`
#[tactic(auto, unfolding(crate::specs::Exprs::read_myself))]
fn myself(tokens: &mut Tokens<'_>) -> Result<RawExpr, Fault>
    ensures { Reads (spec.read_myself tokens.old) result tokens.new }
{
    tokens.keyword(Keyword::Uri)?;
    let is = is_equal(tokens)?;
    tokens.keyword(Keyword::Myself)?;
    Ok(RawExpr::Myself(is))
}

/// The levels of expressions, over what reads a `un` (so each of them is proved by itself).
#[derive(Clone, Copy)]
pub struct Levels<F> {
    alloc: Global,
    /// So many brackets and prefix operators may stand inside one another in a `un`.
    room: usize,
    unary: F,
}

impl<F: Fn(Global, &mut Tokens<'_>, usize) -> Result<RawExpr, Fault>> Levels<F> {
    fn unary(&self, tokens: &mut Tokens<'_>) -> Result<RawExpr, Fault>
        requires { ReadsUnary self.now.room (F.pre self.now.unary) (F.post self.now.unary) }
        ensures { Reads (spec.unary self.now.room tokens.old) result tokens.new }
    {
        (self.unary)(self.alloc, tokens, self.room)
    }

    fn next_factor(&self, tokens: &mut Tokens<'_>) -> Result<Option<(BinOp, RawExpr)>, Fault>
        requires { ReadsUnary self.now.room (F.pre self.now.unary) (F.post self.now.unary) }
        ensures { Reads (spec.read_link spec.factor_operator (spec.unary self.now.room) tokens.old) result tokens.new }
    {
        let Some(op) = factor_operator(tokens.first()) else {
            return Ok(None);
        };
        tokens.pass();
        Ok(Some((op, self.unary(tokens)?)))
    }

    /// `un { ( "*" | "/" | "mod" ) un }`
    #[tactic(auto, unfolding(crate::specs::Exprs::product, crate::specs::Exprs::more_factors))]
    fn product(&self, tokens: &mut Tokens<'_>) -> Result<RawExpr, Fault>
        requires { ReadsUnary self.now.room (F.pre self.now.unary) (F.post self.now.unary) }
        ensures { Reads (spec.product (spec.unary self.now.room) tokens.old) result tokens.new }
    {
        let first = self.unary(tokens)?;
        let links = many(
            tokens,
            Items::new(self.alloc),
            |tokens| self.next_factor(tokens),
        )?;
        Ok(chain(self.alloc, first, links)?)
    }

    fn next_term(&self, tokens: &mut Tokens<'_>) -> Result<Option<(BinOp, RawExpr)>, Fault>
        requires { ReadsUnary self.now.room (F.pre self.now.unary) (F.post self.now.unary) }
        ensures { Reads (spec.read_link spec.term_operator (spec.product (spec.unary self.now.room)) tokens.old) result tokens.new }
    {
        let Some(op) = term_operator(tokens.first()) else {
            return Ok(None);
        };
        tokens.pass();
        Ok(Some((op, self.product(tokens)?)))
    }

    /// `mul { ( "+" | "-" ) mul }`
    #[tactic(auto, unfolding(crate::specs::Exprs::sum, crate::specs::Exprs::more_terms))]
    fn sum(&self, tokens: &mut Tokens<'_>) -> Result<RawExpr, Fault>
        requires { ReadsUnary self.now.room (F.pre self.now.unary) (F.post self.now.unary) }
        ensures { Reads (spec.sum (spec.unary self.now.room) tokens.old) result tokens.new }
    {
        let first = self.product(tokens)?;
        let links = many(
            tokens,
            Items::new(self.alloc),
            |tokens| self.next_term(tokens),
        )?;
        Ok(chain(self.alloc, first, links)?)
    }

    /// What follows the first sum of a comparison.
    #[tactic(auto, unfolding(crate::specs::Exprs::compared))]
    fn compared(&self, tokens: &mut Tokens<'_>, first: RawExpr) -> Result<RawExpr, Fault>
        requires { ReadsUnary self.now.room (F.pre self.now.unary) (F.post self.now.unary) }
        ensures { Reads (spec.compared (spec.unary self.now.room) first tokens.old) result tokens.new }
    {
        if tokens.eat_mark(Mark::Matches) {
            let pattern = string(self.alloc, tokens)?;
            return Ok(RawExpr::Matches(Boxed::new(self.alloc, first)?, pattern));
        }
        let Some(op) = comparison_operator(tokens.first()) else {
            return Ok(first);
        };
        tokens.pass();
        let second = self.sum(tokens)?;
        let mut links = Items::new(self.alloc);
        links.push((op, second))?;
        Ok(chain(self.alloc, first, links)?)
    }

    /// `sum [ ( "==" | "!=" | "<" | ">" | "<=" | ">=" ) sum | "=~" STRING ]`, or `"uri" ( "==" | "!=" ) "myself"`
    #[tactic(auto, unfolding(crate::specs::Exprs::comparison))]
    fn comparison(&self, tokens: &mut Tokens<'_>) -> Result<RawExpr, Fault>
        requires { ReadsUnary self.now.room (F.pre self.now.unary) (F.post self.now.unary) }
        ensures { Reads (spec.comparison (spec.unary self.now.room) tokens.old) result tokens.new }
    {
        if let Some(Lexeme::Keyword(Keyword::Uri)) = tokens.first() {
            return myself(tokens);
        }
        let first = self.sum(tokens)?;
        self.compared(tokens, first)
    }

    fn next_of_all(&self, tokens: &mut Tokens<'_>) -> Result<Option<RawExpr>, Fault>
        requires { ReadsUnary self.now.room (F.pre self.now.unary) (F.post self.now.unary) }
        ensures { Reads (spec.read_joined spec.is_and (spec.comparison (spec.unary self.now.room)) tokens.old) result tokens.new }
    {
        if !is_and(tokens.first()) {
            return Ok(None);
        }
        tokens.pass();
        Ok(Some(self.comparison(tokens)?))
    }

    /// `cmp { ( "&&" | "and" ) cmp }`
    #[tactic(auto, unfolding(crate::specs::Exprs::all_of, crate::specs::Exprs::more_of_all))]
    fn all_of(&self, tokens: &mut Tokens<'_>) -> Result<RawExpr, Fault>
        requires { ReadsUnary self.now.room (F.pre self.now.unary) (F.post self.now.unary) }
        ensures { Reads (spec.all_of (spec.unary self.now.room) tokens.old) result tokens.new }
    {
        let first = self.comparison(tokens)?;
        let more = many(
            tokens,
            Items::new(self.alloc),
            |tokens| self.next_of_all(tokens),
        )?;
        if more.is_empty() {
            return Ok(first);
        }
        Ok(RawExpr::All(together(self.alloc, first, more)?))
    }

    fn next_of_any(&self, tokens: &mut Tokens<'_>) -> Result<Option<RawExpr>, Fault>
        requires { ReadsUnary self.now.room (F.pre self.now.unary) (F.post self.now.unary) }
        ensures { Reads (spec.read_joined spec.is_or (spec.all_of (spec.unary self.now.room)) tokens.old) result tokens.new }
    {
        if !is_or(tokens.first()) {
            return Ok(None);
        }
        tokens.pass();
        Ok(Some(self.all_of(tokens)?))
    }

    /// `and { ( "||" | "or" ) and }`
    #[tactic(auto, unfolding(crate::specs::Exprs::any_of, crate::specs::Exprs::more_of_any))]
    fn any_of(&self, tokens: &mut Tokens<'_>) -> Result<RawExpr, Fault>
        requires { ReadsUnary self.now.room (F.pre self.now.unary) (F.post self.now.unary) }
        ensures { Reads (spec.any_of (spec.unary self.now.room) tokens.old) result tokens.new }
    {
        let first = self.all_of(tokens)?;
        let more = many(
            tokens,
            Items::new(self.alloc),
            |tokens| self.next_of_any(tokens),
        )?;
        if more.is_empty() {
            return Ok(first);
        }
        Ok(RawExpr::Any(together(self.alloc, first, more)?))
    }

    /// `"(" expr ")"`
    #[tactic(auto, unfolding(crate::specs::Exprs::bracketed))]
    fn bracketed(&self, tokens: &mut Tokens<'_>) -> Result<RawExpr, Fault>
        requires { ReadsUnary self.now.room (F.pre self.now.unary) (F.post self.now.unary) }
        ensures { Reads (spec.bracketed (spec.unary self.now.room) tokens.old) result tokens.new }
    {
        tokens.mark(Mark::OpenRound)?;
        let inside = self.any_of(tokens)?;
        tokens.mark(Mark::CloseRound)?;
        Ok(inside)
    }

    /// `( "!" | "not" | "-" ) un | "(" expr ")"`, or what stands by itself
    #[tactic(auto, unfolding(crate::specs::Exprs::prefixed))]
    pub fn prefixed(&self, tokens: &mut Tokens<'_>) -> Result<RawExpr, Fault>
        requires { ReadsUnary self.now.room (F.pre self.now.unary) (F.post self.now.unary) }
        ensures { Reads (spec.prefixed (spec.unary self.now.room) tokens.old) result tokens.new }
    {
        match tokens.first() {
            Some(Lexeme::Mark(Mark::Not) | Lexeme::Keyword(Keyword::Not)) => {
                tokens.pass();
                let operand = self.unary(tokens)?;
                Ok(RawExpr::Not(Boxed::new(self.alloc, operand)?))
            }
            Some(Lexeme::Mark(Mark::Minus)) => {
                tokens.pass();
                let operand = self.unary(tokens)?;
                Ok(RawExpr::Negative(Boxed::new(self.alloc, operand)?))
            }
            Some(Lexeme::Mark(Mark::OpenRound)) => self.bracketed(tokens),
            _ => atom(self.alloc, tokens),
        }
    }
}

/// A `un`, in which so many brackets and prefix operators may stand inside one another. Where none may, one
/// is a fault by itself: nothing that the grammar derives goes on after it.
fn unary(alloc: Global, tokens: &mut Tokens<'_>, room: usize) -> Result<RawExpr, Fault>
    ensures { Reads (spec.unary room tokens.old) result tokens.new }
{
    if room == 0 {
        return atom(alloc, tokens);
    }
    Levels {
        alloc,
        room: room - 1,
        unary,
    }
    .prefixed(tokens)
}

/// An expression.
#[tactic(auto, unfolding(crate::specs::Exprs::expr, crate::specs::Exprs::read_expr))]
pub fn expr(alloc: Global, tokens: &mut Tokens<'_>) -> Result<RawExpr, Fault>
    ensures { Reads (spec.expr tokens.old) result tokens.new }
{
    Levels {
        alloc,
        room: ROOM,
        unary,
    }
    .any_of(tokens)
}
