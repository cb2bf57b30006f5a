//! Expressions.

ghost use Rattle.std.specs.Prelude.{◌≡◌, ◌∷◌, [], IfOk, map, option_map};
ghost use Rattle.cfg_tree.specs.Checks as checks;
ghost use Rattle.cfg_tree.specs.Refusals.{join, each, one};
ghost use Rattle.cfg_tree.specs.declared.script.Expr.TheOpen.{Expr-F};
ghost use Rattle.cfg_tree.specs.declared.script.Expr.TheViews.{roll-Expr};
ghost use Rattle.cfg_calls.specs.Following.{Follows};

use cfg_calls::{Checker, Known, with_item};
use cfg_tree::{Expr, Part, RawCall, RawExpr, RouteKind};
use pv_values::{BinOp, PvUse};
use sqlite_items::{Boxed, Items};
use std::alloc::{AllocError as NoMemory, Global};

/// `uri == myself`, or `uri != myself`
fn myself(alloc: Global, is: bool) -> Result<Expr, NoMemory>
    ensures { IfOk result (λ e. e ≡ checks.myself is) }
{
    let test = Expr::Read(Part::Host(PvUse::Myself));
    if is {
        return Ok(test);
    }
    Ok(Expr::Not(Boxed::new(alloc, test)?))
}

fn not(alloc: Global, e: Option<Expr>) -> Result<Option<Expr>, NoMemory>
    ensures { IfOk result (λ r. r ≡ option_map (λ x. roll-Expr (Expr-F.Not x)) e) }
{
    match e {
        Some(e) => Ok(Some(Expr::Not(Boxed::new(alloc, e)?))),
        None => Ok(None),
    }
}

fn negative(alloc: Global, e: Option<Expr>) -> Result<Option<Expr>, NoMemory>
    ensures { IfOk result (λ r. r ≡ option_map (λ x. roll-Expr (Expr-F.Negative x)) e) }
{
    match e {
        Some(e) => Ok(Some(Expr::Negative(Boxed::new(alloc, e)?))),
        None => Ok(None),
    }
}

fn chain(
    alloc: Global,
    first: Option<Expr>,
    links: Option<Items<(BinOp, Expr)>>,
) -> Result<Option<Expr>, NoMemory>
    ensures { IfOk result (λ r. r ≡ join (λ e ls. roll-Expr (Expr-F.Chain e ls)) first links) }
{
    match (first, links) {
        (Some(first), Some(links)) => Ok(Some(Expr::Chain(Boxed::new(alloc, first)?, links))),
        _ => Ok(None),
    }
}

fn matches(alloc: Global, e: Option<Expr>, pattern: Option<u32>) -> Result<Option<Expr>, NoMemory>
    ensures { IfOk result (λ r. r ≡ join (λ x p. roll-Expr (Expr-F.Matches x p)) e pattern) }
{
    match (e, pattern) {
        (Some(e), Some(pattern)) => Ok(Some(Expr::Matches(Boxed::new(alloc, e)?, pattern))),
        _ => Ok(None),
    }
}

/// An operand with the operator before it.
fn link(operator: BinOp, operand: Option<Expr>) -> Option<(BinOp, Expr)>
    ensures { result ≡ option_map (λ e. (operator, e)) operand }
{
    Some((operator, operand?))
}

/// A call of a function or a route, in a block of this kind.
#[tactic(auto, using(cfg_calls::proofs::Follows::follows_one))]
pub fn call(
    checker: &mut Checker,
    known: &Known,
    kind: RouteKind,
    call: &RawCall,
) -> Result<Option<Expr>, NoMemory>
    ensures { IfOk result (λ v. Follows (checks.call_in known.now kind call.now) checker.old v checker.new) }
{
    match call {
        RawCall::Function(word, args) => {
            match checker.function_call(known, kind, word, args.as_slice())? {
                Some((func, arguments)) => Ok(Some(Expr::Call(func, arguments))),
                None => Ok(None),
            }
        }
        RawCall::Route(word) => {
            match checker.block_number(known, RouteKind::Route, word)? {
                Some(block) => Ok(Some(Expr::Route(block))),
                None => Ok(None),
            }
        }
    }
}

/// An expression, in a block of this kind.
#[tactic(auto, using(cfg_calls::proofs::Follows::follows_one, cfg_calls::proofs::Follows::follows_both, cfg_calls::proofs::Follows::follows_accepted))]
#[cycle(exprs)]
pub fn expr(
    checker: &mut Checker,
    known: &Known,
    kind: RouteKind,
    e: &RawExpr,
) -> Result<Option<Expr>, NoMemory>
    ensures { IfOk result (λ v. Follows (checks.expr_in known.now kind e.now) checker.old v checker.new) }
{
    match e {
        RawExpr::Number(n) => Ok(Some(Expr::Int(*n))),
        RawExpr::String(word) => Ok(Some(Expr::Text(word.text.copy(checker.alloc())?))),
        RawExpr::Variable(v) => match checker.variable(known, v)? {
            Some(part) => Ok(Some(Expr::Read(part))),
            None => Ok(None),
        },
        RawExpr::Call(call) => self::call(checker, known, kind, call),
        RawExpr::Not(a) => {
            let a = expr(checker, known, kind, a.get())?;
            not(checker.alloc(), a)
        }
        RawExpr::Negative(a) => {
            let a = expr(checker, known, kind, a.get())?;
            negative(checker.alloc(), a)
        }
        RawExpr::Chain(a, links) => {
            let first = expr(checker, known, kind, a.get())?;
            let links = self::links(checker, known, kind, links.as_slice())?;
            chain(checker.alloc(), first, links)
        }
        RawExpr::Matches(a, word) => {
            let a = expr(checker, known, kind, a.get())?;
            let pattern = checker.pattern_number(word.at, word.text.bytes())?;
            matches(checker.alloc(), a, pattern)
        }
        RawExpr::All(operands) => {
            match exprs(checker, known, kind, operands.as_slice())? {
                Some(operands) => Ok(Some(Expr::All(operands))),
                None => Ok(None),
            }
        }
        RawExpr::Any(operands) => {
            match exprs(checker, known, kind, operands.as_slice())? {
                Some(operands) => Ok(Some(Expr::Any(operands))),
                None => Ok(None),
            }
        }
        RawExpr::Myself(is) => Ok(Some(myself(checker.alloc(), *is)?)),
    }
}

/// Operands, one after another.
#[tactic(auto, using(cfg_calls::proofs::Follows::each_item, cfg_calls::proofs::Follows::each_whole, cfg_calls::proofs::Follows::follows_each_none))]
#[cycle(exprs)]
fn exprs(
    checker: &mut Checker,
    known: &Known,
    kind: RouteKind,
    operands: &[RawExpr],
) -> Result<Option<Items<Expr>>, NoMemory>
    ensures { IfOk result (λ v. Follows (each (map (checks.expr_in known.now kind) operands.now)) checker.old v checker.new) }
{
    let mut all = Some(Items::new(checker.alloc()));
    for operand in operands {
        let e = expr(checker, known, kind, operand)?;
        all = with_item(all, e)?;
    }
    Ok(all)
}

/// Operands of a chain, each with the operator before it.
#[tactic(auto, using(cfg_calls::proofs::Follows::follows_one, cfg_calls::proofs::Follows::each_item, cfg_calls::proofs::Follows::each_whole, cfg_calls::proofs::Follows::follows_each_none))]
#[cycle(exprs)]
fn links(
    checker: &mut Checker,
    known: &Known,
    kind: RouteKind,
    links: &[(BinOp, RawExpr)],
) -> Result<Option<Items<(BinOp, Expr)>>, NoMemory>
    ensures { IfOk result (λ v. Follows (each (map (λ l. one (λ e. (l.0, e)) (checks.expr_in known.now kind l.1)) links.now)) checker.old v checker.new) }
{
    let mut all = Some(Items::new(checker.alloc()));
    for item in links {
        let e = expr(checker, known, kind, &item.1)?;
        all = with_item(all, link(item.0, e))?;
    }
    Ok(all)
}
