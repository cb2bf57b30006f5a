//! Statements.

ghost use Rattle.std.specs.Prelude.{◌≡◌, ◌∷◌, [], IfOk, map, option_map};
ghost use Rattle.cfg_tree.specs.Checks.{stmt_step, stmt_in, all_in, maybe, maybe_expr, numbered};
ghost use Rattle.cfg_tree.specs.Refusals.{accepted, join};
ghost use Rattle.cfg_tree.specs.declared.script.Stmt.TheOpen.{Stmt-F};
ghost use Rattle.cfg_tree.specs.declared.script.Stmt.TheViews.{roll-Stmt};
ghost use Rattle.cfg_tree.specs.declared.raw.RawStmt.TheOpen.{RawStmt-F};
ghost use Rattle.cfg_calls.specs.Following.{Follows, within_limit};
ghost use Rattle.cfg_check.specs.Cases.{Begins, case_in, cases_in};

use crate::{expr, target};
use cfg_calls::{Checker, Known, one, with_item, with_items};
use cfg_tree::{Expr, RawCall, RawExpr, RawStmt, RawVariable, RouteKind, Stmt, Target};
use pv_values::{Place, Val};
use sqlite_items::{Boxed, Items};
use std::alloc::{AllocError as NoMemory, Global};

/// What stands here, if its statement is one of those that a script may have.
fn where_within<T: Drop>(within: bool, value: Option<T>) -> Option<T>
    ensures { result ≡ within_limit within value }
{
    if within { value } else { None }
}

/// The list of the statement, where there is one.
fn single(alloc: Global, stmt: Option<Stmt>) -> Result<Option<Items<Stmt>>, NoMemory>
    ensures { IfOk result (λ r. r ≡ option_map (λ s. s ∷ []) stmt) }
{
    match stmt {
        Some(stmt) => Ok(Some(one(alloc, stmt)?)),
        None => Ok(None),
    }
}

/// The one statement that stands here, if it is one of those that a script may have.
fn alone(alloc: Global, within: bool, stmt: Option<Stmt>) -> Result<Option<Items<Stmt>>, NoMemory>
    ensures { IfOk result (λ r. r ≡ option_map (λ s. s ∷ []) (within_limit within stmt)) }
{
    single(alloc, where_within(within, stmt))
}

/// A call as a statement.
fn call_alone(call: Option<Expr>) -> Option<Stmt>
    ensures { result ≡ option_map (λ e. roll-Stmt (Stmt-F.Do e)) call }
{
    Some(Stmt::Do(call?))
}

/// `return`, with its value.
fn returning(value: Option<Option<Expr>>) -> Option<Stmt>
    ensures { result ≡ option_map (λ e. roll-Stmt (Stmt-F.Return e)) value }
{
    Some(Stmt::Return(value?))
}

fn assignment(target: Option<Target>, value: Option<Expr>) -> Option<Stmt>
    ensures { result ≡ join (λ t e. roll-Stmt (Stmt-F.Set t e)) target value }
{
    Some(Stmt::Set(target?, value?))
}

/// Two values as one.
fn pair<T: Drop>(first: Option<Expr>, second: Option<T>) -> Option<(Expr, T)>
    ensures { result ≡ join (λ e x. (e, x)) first second }
{
    Some((first?, second?))
}

fn choice(begun: Option<(Expr, Items<Stmt>)>, other: Option<Items<Stmt>>) -> Option<Stmt>
    ensures { result ≡ join (λ p more. roll-Stmt (Stmt-F.If p.0 p.1 more)) begun other }
{
    let (test, first) = begun?;
    Some(Stmt::If(test, first, other?))
}

fn repetition(begun: Option<(Expr, Items<Stmt>)>) -> Option<Stmt>
    ensures { result ≡ option_map (λ p. roll-Stmt (Stmt-F.While p.0 p.1)) begun }
{
    let (test, body) = begun?;
    Some(Stmt::While(test, body))
}

fn selection(
    begun: Option<(Expr, Items<(Val, Items<Stmt>)>)>,
    default: Option<Items<Stmt>>,
) -> Option<Stmt>
    ensures { result ≡ join (λ p last. roll-Stmt (Stmt-F.Switch p.0 p.1 last)) begun default }
{
    let (value, cases) = begun?;
    Some(Stmt::Switch(value, cases, default?))
}

/// A case with its label.
fn labelled(
    alloc: Global,
    label: &Val,
    body: Option<Items<Stmt>>,
) -> Result<Option<(Val, Items<Stmt>)>, NoMemory>
    ensures { IfOk result (λ r. r ≡ option_map (λ ss. (label.now, ss)) body) }
{
    match body {
        Some(body) => Ok(Some((label.copy(alloc)?, body))),
        None => Ok(None),
    }
}

/// `VAR = e;`
fn assigned(
    checker: &mut Checker,
    known: &Known,
    kind: RouteKind,
    at: Place,
    v: &RawVariable,
    e: &RawExpr,
) -> Result<Option<Items<Stmt>>, NoMemory>
    ensures { IfOk result (λ r. Follows (stmt_step known.now kind (RawStmt-F.Set at v.now e.now)) checker.old r checker.new) }
{
    let within = checker.count(at)?;
    let target = target::target_of(checker, known, kind, v)?;
    let value = expr::expr(checker, known, kind, e)?;
    alone(checker.alloc(), within, assignment(target, value))
}

/// A call as a statement.
fn called(
    checker: &mut Checker,
    known: &Known,
    kind: RouteKind,
    at: Place,
    call: &RawCall,
) -> Result<Option<Items<Stmt>>, NoMemory>
    ensures { IfOk result (λ r. Follows (stmt_step known.now kind (RawStmt-F.Do at call.now)) checker.old r checker.new) }
{
    let within = checker.count(at)?;
    let call = expr::call(checker, known, kind, call)?;
    alone(checker.alloc(), within, call_alone(call))
}

/// The value after `return`, where there is one.
fn maybe_expr(
    checker: &mut Checker,
    known: &Known,
    kind: RouteKind,
    e: &Option<RawExpr>,
) -> Result<Option<Option<Expr>>, NoMemory>
    ensures { IfOk result (λ r. Follows (maybe_expr known.now kind e.now) checker.old r checker.new) }
{
    match e {
        None => Ok(Some(None)),
        Some(e) => match expr::expr(checker, known, kind, e)? {
            Some(e) => Ok(Some(Some(e))),
            None => Ok(None),
        },
    }
}

/// `return e;`, or `return;`
fn returned(
    checker: &mut Checker,
    known: &Known,
    kind: RouteKind,
    at: Place,
    e: &Option<RawExpr>,
) -> Result<Option<Items<Stmt>>, NoMemory>
    ensures { IfOk result (λ r. Follows (stmt_step known.now kind (RawStmt-F.Return at e.now)) checker.old r checker.new) }
{
    let within = checker.count(at)?;
    let value = maybe_expr(checker, known, kind, e)?;
    alone(checker.alloc(), within, returning(value))
}

/// `exit;`
fn exit(checker: &mut Checker, at: Place) -> Result<Option<Items<Stmt>>, NoMemory>
    ensures { IfOk result (λ r. Follows (numbered at (accepted (Stmt.Exit ∷ []))) checker.old r checker.new) }
{
    let within = checker.count(at)?;
    alone(checker.alloc(), within, Some(Stmt::Exit))
}

/// `drop;`
fn dropped(checker: &mut Checker, at: Place) -> Result<Option<Items<Stmt>>, NoMemory>
    ensures { IfOk result (λ r. Follows (numbered at (accepted (Stmt.Drop ∷ []))) checker.old r checker.new) }
{
    let within = checker.count(at)?;
    alone(checker.alloc(), within, Some(Stmt::Drop))
}

/// `break;`
fn broken(checker: &mut Checker, at: Place) -> Result<Option<Items<Stmt>>, NoMemory>
    ensures { IfOk result (λ r. Follows (numbered at (accepted (Stmt.Break ∷ []))) checker.old r checker.new) }
{
    let within = checker.count(at)?;
    alone(checker.alloc(), within, Some(Stmt::Break))
}

/// `;`
fn empty(checker: &mut Checker, at: Place) -> Result<Option<Items<Stmt>>, NoMemory>
    ensures { IfOk result (λ r. Follows (numbered at (accepted [])) checker.old r checker.new) }
{
    let within = checker.count(at)?;
    let nothing = Items::new(checker.alloc());
    Ok(where_within(within, Some(nothing)))
}

/// What an expression and a statement after it begin: the one that they stand in is counted first.
#[cycle(stmts)]
fn with_stmt(
    checker: &mut Checker,
    known: &Known,
    kind: RouteKind,
    s: &RawStmt,
    at: Place,
    e: &RawExpr,
) -> Result<Option<(Expr, Items<Stmt>)>, NoMemory>
    ensures { IfOk result (λ r. Begins known.now kind at e.now (stmt_in known.now kind s.now) checker.old r checker.new) }
{
    let within = checker.count(at)?;
    let value = expr::expr(checker, known, kind, e)?;
    let stmts = stmt(checker, known, kind, s)?;
    Ok(where_within(within, pair(value, stmts)))
}

/// What an expression and the cases after it begin: the statement that they stand in is counted first.
#[cycle(stmts)]
fn with_cases(
    checker: &mut Checker,
    known: &Known,
    kind: RouteKind,
    cases: &[(Val, Items<RawStmt>)],
    at: Place,
    e: &RawExpr,
) -> Result<Option<(Expr, Items<(Val, Items<Stmt>)>)>, NoMemory>
    ensures { IfOk result (λ r. Begins known.now kind at e.now (cases_in known.now kind cases.now) checker.old r checker.new) }
{
    let within = checker.count(at)?;
    let value = expr::expr(checker, known, kind, e)?;
    let cases = self::cases(checker, known, kind, cases)?;
    Ok(where_within(within, pair(value, cases)))
}

/// `{ .. }`
#[cycle(stmts)]
fn grouped(
    checker: &mut Checker,
    known: &Known,
    kind: RouteKind,
    stmts: &[RawStmt],
    at: Place,
) -> Result<Option<Items<Stmt>>, NoMemory>
    ensures { IfOk result (λ r. Follows (numbered at (all_in (map (stmt_in known.now kind) stmts.now))) checker.old r checker.new) }
{
    let within = checker.count(at)?;
    let stmts = self::stmts(checker, known, kind, stmts)?;
    Ok(where_within(within, stmts))
}

/// A statement, in a block of this kind.
#[cycle(stmts)]
fn stmt(
    checker: &mut Checker,
    known: &Known,
    kind: RouteKind,
    s: &RawStmt,
) -> Result<Option<Items<Stmt>>, NoMemory>
    ensures { IfOk result (λ r. Follows (stmt_in known.now kind s.now) checker.old r checker.new) }
{
    match s {
        RawStmt::If(at, e, first, other) => {
            let begun = with_stmt(checker, known, kind, first.get(), *at, e)?;
            let other = otherwise(checker, known, kind, other)?;
            single(checker.alloc(), choice(begun, other))
        }
        RawStmt::While(at, e, body) => {
            let begun = with_stmt(checker, known, kind, body.get(), *at, e)?;
            single(checker.alloc(), repetition(begun))
        }
        RawStmt::Switch(at, e, cases, default) => {
            let begun = with_cases(checker, known, kind, cases.as_slice(), *at, e)?;
            let default = self::stmts(checker, known, kind, default.as_slice())?;
            single(checker.alloc(), selection(begun, default))
        }
        RawStmt::Set(at, v, e) => assigned(checker, known, kind, *at, v, e),
        RawStmt::Do(at, call) => called(checker, known, kind, *at, call),
        RawStmt::Return(at, e) => returned(checker, known, kind, *at, e),
        RawStmt::Exit(at) => exit(checker, *at),
        RawStmt::Drop(at) => dropped(checker, *at),
        RawStmt::Break(at) => broken(checker, *at),
        RawStmt::Group(at, stmts) => grouped(checker, known, kind, stmts.as_slice(), *at),
        RawStmt::Empty(at) => empty(checker, *at),
    }
}

/// `else` and its statement, or nothing.
#[cycle(stmts)]
fn otherwise(
    checker: &mut Checker,
    known: &Known,
    kind: RouteKind,
    other: &Option<Boxed<RawStmt>>,
) -> Result<Option<Items<Stmt>>, NoMemory>
    ensures { IfOk result (λ r. Follows (maybe (option_map (stmt_in known.now kind) other.now)) checker.old r checker.new) }
{
    match other {
        Some(s) => stmt(checker, known, kind, s.get()),
        None => Ok(Some(Items::new(checker.alloc()))),
    }
}

/// Statements, one after another.
#[cycle(stmts)]
pub fn stmts(
    checker: &mut Checker,
    known: &Known,
    kind: RouteKind,
    stmts: &[RawStmt],
) -> Result<Option<Items<Stmt>>, NoMemory>
    ensures { IfOk result (λ r. Follows (all_in (map (stmt_in known.now kind) stmts.now)) checker.old r checker.new) }
{
    let mut all = Some(Items::new(checker.alloc()));
    for s in stmts {
        let more = stmt(checker, known, kind, s)?;
        all = with_items(all, more)?;
    }
    Ok(all)
}

/// The cases of a `switch`.
#[cycle(stmts)]
fn cases(
    checker: &mut Checker,
    known: &Known,
    kind: RouteKind,
    cases: &[(Val, Items<RawStmt>)],
) -> Result<Option<Items<(Val, Items<Stmt>)>>, NoMemory>
    ensures { IfOk result (λ r. Follows (cases_in known.now kind cases.now) checker.old r checker.new) }
{
    let mut all = Some(Items::new(checker.alloc()));
    for item in cases {
        let one = case(checker, known, kind, item)?;
        all = with_item(all, one)?;
    }
    Ok(all)
}

/// A case with its label.
#[cycle(stmts)]
fn case(
    checker: &mut Checker,
    known: &Known,
    kind: RouteKind,
    item: &(Val, Items<RawStmt>),
) -> Result<Option<(Val, Items<Stmt>)>, NoMemory>
    ensures { IfOk result (λ r. Follows (case_in known.now kind item.now) checker.old r checker.new) }
{
    let body = self::stmts(checker, known, kind, item.1.as_slice())?;
    labelled(checker.alloc(), &item.0, body)
}
