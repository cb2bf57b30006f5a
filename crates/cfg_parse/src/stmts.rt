//! Statements.

ghost use Rattle.std.specs.Prelude.{◌≡◌, []};
ghost use Rattle.cfg_tree.specs.declared.token.Keyword.TheVariants.{Else, Case, Default};
ghost use Rattle.cfg_tree.specs.declared.token.Mark.TheVariants.{Colon};
ghost use Rattle.cfg_parse.specs.Reader.{Reads, ◌>>◌, one, behind_keyword};
ghost use Rattle.cfg_parse.specs.Stmts as spec;
ghost use Rattle.cfg_parse.specs.Nests.{ReadsStmt};

use crate::calls::{call, number, string, variable};
use crate::exprs::expr;
use crate::fault::Fault;
use crate::repeat::many;
use crate::tokens::Tokens;
use cfg_tree::{Keyword, Lexeme, Mark, RawExpr, RawStmt};
use pv_values::{Place, Val};
use sqlite_items::{Boxed, Items};
use std::alloc::Global;

/// A statement's depth is 64 at most.
const DEPTH: usize = 64;

/// `"(" expr ")"`
#[tactic(auto, unfolding(crate::specs::Stmts::condition))]
fn condition(alloc: Global, tokens: &mut Tokens<'_>) -> Result<RawExpr, Fault>
    ensures { Reads (spec.condition tokens.old) result tokens.new }
{
    tokens.mark(Mark::OpenRound)?;
    let e = expr(alloc, tokens)?;
    tokens.mark(Mark::CloseRound)?;
    Ok(e)
}

/// `VAR "=" expr ";"`
#[tactic(auto, unfolding(crate::specs::Stmts::assignment))]
fn assignment(alloc: Global, tokens: &mut Tokens<'_>) -> Result<RawStmt, Fault>
    ensures { Reads (spec.assignment tokens.old) result tokens.new }
{
    let start = tokens.here();
    let to = variable(alloc, tokens)?;
    tokens.mark(Mark::Assign)?;
    let e = expr(alloc, tokens)?;
    tokens.mark(Mark::Semicolon)?;
    Ok(RawStmt::Set(tokens.since(start), to, e))
}

/// `call ";"`
#[tactic(auto, unfolding(crate::specs::Stmts::call_alone))]
fn call_alone(alloc: Global, tokens: &mut Tokens<'_>) -> Result<RawStmt, Fault>
    ensures { Reads (spec.call_alone tokens.old) result tokens.new }
{
    let start = tokens.here();
    let call = call(alloc, tokens)?;
    tokens.mark(Mark::Semicolon)?;
    Ok(RawStmt::Do(tokens.since(start), call))
}

/// `[ expr ] ";"`
#[tactic(auto, unfolding(crate::specs::Stmts::read_returned))]
fn returned(alloc: Global, tokens: &mut Tokens<'_>) -> Result<Option<RawExpr>, Fault>
    ensures { Reads (spec.read_returned tokens.old) result tokens.new }
{
    if tokens.eat_mark(Mark::Semicolon) {
        return Ok(None);
    }
    let e = expr(alloc, tokens)?;
    tokens.mark(Mark::Semicolon)?;
    Ok(Some(e))
}

/// `"return" [ expr ] ";"`
#[tactic(auto, unfolding(crate::specs::Stmts::return_of))]
fn return_of(alloc: Global, tokens: &mut Tokens<'_>) -> Result<RawStmt, Fault>
    ensures { Reads (spec.return_of tokens.old) result tokens.new }
{
    let start = tokens.here();
    tokens.keyword(Keyword::Return)?;
    let value = returned(alloc, tokens)?;
    Ok(RawStmt::Return(tokens.since(start), value))
}

/// A keyword with `";"`, and where both stand.
#[tactic(auto, unfolding(crate::specs::Stmts::alone))]
fn alone(tokens: &mut Tokens<'_>, word: Keyword) -> Result<Place, Fault>
    ensures { Reads (spec.alone word tokens.old) result tokens.new }
{
    let start = tokens.here();
    tokens.keyword(word)?;
    tokens.mark(Mark::Semicolon)?;
    Ok(tokens.since(start))
}

/// `";"`
#[tactic(auto, unfolding(crate::specs::Stmts::empty))]
fn empty(tokens: &mut Tokens<'_>) -> Result<RawStmt, Fault>
    ensures { Reads (spec.empty tokens.old) result tokens.new }
{
    let start = tokens.here();
    tokens.mark(Mark::Semicolon)?;
    Ok(RawStmt::Empty(tokens.since(start)))
}

/// LABEL
#[tactic(auto, unfolding(crate::specs::Reader::one, crate::specs::Reader::first, crate::specs::Calls::number, crate::specs::Calls::string))]
fn label_value(alloc: Global, tokens: &mut Tokens<'_>) -> Result<Val, Fault>
    ensures { Reads (one spec.label_in tokens.old) result tokens.new }
{
    match tokens.first() {
        Some(Lexeme::Number(_)) => Ok(Val::Int(number(tokens)?)),
        _ => Ok(Val::Text(string(alloc, tokens)?.text)),
    }
}

/// The label of a case, and its colon.
#[tactic(auto, unfolding(crate::specs::Stmts::label))]
fn label(alloc: Global, tokens: &mut Tokens<'_>) -> Result<Val, Fault>
    ensures { Reads (spec.label tokens.old) result tokens.new }
{
    let value = label_value(alloc, tokens)?;
    tokens.mark(Mark::Colon)?;
    Ok(value)
}

/// Statements with others in them, over what reads those (so each is proved by itself).
#[derive(Clone, Copy)]
pub struct Around<F> {
    alloc: Global,
    /// So many statements may stand inside one another in an inner statement, that one among them.
    room: usize,
    stmt: F,
}

impl<F: Fn(Global, &mut Tokens<'_>, usize, bool) -> Result<RawStmt, Fault>> Around<F> {
    /// An inner statement, in a loop or not.
    fn inner(&self, tokens: &mut Tokens<'_>, in_loop: bool) -> Result<RawStmt, Fault>
        requires { ReadsStmt self.now.room (F.pre self.now.stmt) (F.post self.now.stmt) }
        ensures { Reads (spec.stmt self.now.room in_loop tokens.old) result tokens.new }
    {
        (self.stmt)(self.alloc, tokens, self.room, in_loop)
    }

    /// The next statement of a list, if the list goes on.
    fn next_stmt(&self, tokens: &mut Tokens<'_>, in_loop: bool) -> Result<Option<RawStmt>, Fault>
        requires { ReadsStmt self.now.room (F.pre self.now.stmt) (F.post self.now.stmt) }
        ensures { Reads (spec.next_stmt (spec.stmt self.now.room) in_loop tokens.old) result tokens.new }
    {
        match tokens.first() {
            Some(
                Lexeme::Mark(Mark::CloseCurly) | Lexeme::Keyword(Keyword::Case | Keyword::Default),
            ) => { Ok(None) }
            _ => Ok(Some(self.inner(tokens, in_loop)?)),
        }
    }

    /// `{ stmt }`
    #[tactic(auto, unfolding(crate::specs::Stmts::stmts))]
    fn stmts(&self, tokens: &mut Tokens<'_>, in_loop: bool) -> Result<Items<RawStmt>, Fault>
        requires { ReadsStmt self.now.room (F.pre self.now.stmt) (F.post self.now.stmt) }
        ensures { Reads (spec.stmts (spec.stmt self.now.room) in_loop tokens.old) result tokens.new }
    {
        many(
            tokens,
            Items::new(self.alloc),
            |tokens| self.next_stmt(tokens, in_loop),
        )
    }

    /// `[ "else" stmt ]`
    fn otherwise(
        &self,
        tokens: &mut Tokens<'_>,
        in_loop: bool,
    ) -> Result<Option<Boxed<RawStmt>>, Fault>
        requires { ReadsStmt self.now.room (F.pre self.now.stmt) (F.post self.now.stmt) }
        ensures { Reads (behind_keyword Else (spec.stmt self.now.room in_loop) tokens.old) result tokens.new }
    {
        if !tokens.eat_keyword(Keyword::Else) {
            return Ok(None);
        }
        let stmt = self.inner(tokens, in_loop)?;
        Ok(Some(Boxed::new(self.alloc, stmt)?))
    }

    /// `"if" "(" expr ")" stmt [ "else" stmt ]`. An `if` in which no statement may stand is a fault by itself.
    #[tactic(auto, using(crate::proofs::Rooms::rooms), unfolding(crate::specs::Stmts::if_of))]
    fn if_of(&self, tokens: &mut Tokens<'_>, in_loop: bool) -> Result<RawStmt, Fault>
        requires { ReadsStmt self.now.room (F.pre self.now.stmt) (F.post self.now.stmt) }
        ensures { Reads (spec.if_of (spec.stmt self.now.room) in_loop tokens.old) result tokens.new }
    {
        if self.room == 0 {
            return Err(tokens.refuse());
        }
        let start = tokens.here();
        tokens.keyword(Keyword::If)?;
        let e = condition(self.alloc, tokens)?;
        let stmt = Boxed::new(self.alloc, self.inner(tokens, in_loop)?)?;
        let other = self.otherwise(tokens, in_loop)?;
        Ok(RawStmt::If(tokens.since(start), e, stmt, other))
    }

    /// `"while" "(" expr ")" stmt`. A `while` in which no statement may stand is a fault by itself.
    #[tactic(auto, using(crate::proofs::Rooms::rooms), unfolding(crate::specs::Stmts::while_of))]
    fn while_of(&self, tokens: &mut Tokens<'_>) -> Result<RawStmt, Fault>
        requires { ReadsStmt self.now.room (F.pre self.now.stmt) (F.post self.now.stmt) }
        ensures { Reads (spec.while_of (spec.stmt self.now.room) tokens.old) result tokens.new }
    {
        if self.room == 0 {
            return Err(tokens.refuse());
        }
        let start = tokens.here();
        tokens.keyword(Keyword::While)?;
        let e = condition(self.alloc, tokens)?;
        let stmt = Boxed::new(self.alloc, self.inner(tokens, true)?)?;
        Ok(RawStmt::While(tokens.since(start), e, stmt))
    }

    /// `"{" { stmt } "}"`
    #[tactic(auto, unfolding(crate::specs::Stmts::group))]
    fn group(&self, tokens: &mut Tokens<'_>, in_loop: bool) -> Result<RawStmt, Fault>
        requires { ReadsStmt self.now.room (F.pre self.now.stmt) (F.post self.now.stmt) }
        ensures { Reads (spec.group (spec.stmt self.now.room) in_loop tokens.old) result tokens.new }
    {
        let start = tokens.here();
        tokens.mark(Mark::OpenCurly)?;
        let stmts = self.stmts(tokens, in_loop)?;
        tokens.mark(Mark::CloseCurly)?;
        Ok(RawStmt::Group(tokens.since(start), stmts))
    }

    /// `LABEL ":" { stmt }`
    #[tactic(auto, unfolding(crate::specs::Stmts::case_of))]
    fn case_of(&self, tokens: &mut Tokens<'_>) -> Result<(Val, Items<RawStmt>), Fault>
        requires { ReadsStmt self.now.room (F.pre self.now.stmt) (F.post self.now.stmt) }
        ensures { Reads (spec.case_of (spec.stmt self.now.room) tokens.old) result tokens.new }
    {
        let label = label(self.alloc, tokens)?;
        let stmts = self.stmts(tokens, true)?;
        Ok((label, stmts))
    }

    /// The next case, if one comes.
    fn next_case(&self, tokens: &mut Tokens<'_>) -> Result<Option<(Val, Items<RawStmt>)>, Fault>
        requires { ReadsStmt self.now.room (F.pre self.now.stmt) (F.post self.now.stmt) }
        ensures { Reads (behind_keyword Case (spec.case_of (spec.stmt self.now.room)) tokens.old) result tokens.new }
    {
        if tokens.eat_keyword(Keyword::Case) {
            Ok(Some(self.case_of(tokens)?))
        } else {
            Ok(None)
        }
    }

    /// `[ "default" ":" { stmt } ]`
    #[tactic(auto, unfolding(crate::specs::Stmts::default))]
    fn default(&self, tokens: &mut Tokens<'_>) -> Result<Items<RawStmt>, Fault>
        requires { ReadsStmt self.now.room (F.pre self.now.stmt) (F.post self.now.stmt) }
        ensures { Reads (spec.default (spec.stmt self.now.room) tokens.old) result tokens.new }
    {
        if !tokens.eat_keyword(Keyword::Default) {
            return Ok(Items::new(self.alloc));
        }
        tokens.mark(Mark::Colon)?;
        self.stmts(tokens, true)
    }

    /// `"switch" "(" expr ")" "{" { "case" LABEL ":" { stmt } } [ "default" ":" { stmt } ] "}"`
    #[tactic(auto, unfolding(crate::specs::Stmts::switch_of, crate::specs::Stmts::cases))]
    fn switch_of(&self, tokens: &mut Tokens<'_>) -> Result<RawStmt, Fault>
        requires { ReadsStmt self.now.room (F.pre self.now.stmt) (F.post self.now.stmt) }
        ensures { Reads (spec.switch_of (spec.stmt self.now.room) tokens.old) result tokens.new }
    {
        let start = tokens.here();
        tokens.keyword(Keyword::Switch)?;
        let e = condition(self.alloc, tokens)?;
        tokens.mark(Mark::OpenCurly)?;
        let cases = many(
            tokens,
            Items::new(self.alloc),
            |tokens| self.next_case(tokens),
        )?;
        let default = self.default(tokens)?;
        tokens.mark(Mark::CloseCurly)?;
        Ok(RawStmt::Switch(tokens.since(start), e, cases, default))
    }

    /// Any statement. `break` stands only in a loop or a `switch`.
    #[tactic(auto, unfolding(crate::specs::Stmts::stmt_over))]
    pub fn stmt_over(&self, tokens: &mut Tokens<'_>, in_loop: bool) -> Result<RawStmt, Fault>
        requires { ReadsStmt self.now.room (F.pre self.now.stmt) (F.post self.now.stmt) }
        ensures { Reads (spec.stmt_over (spec.stmt self.now.room) in_loop tokens.old) result tokens.new }
    {
        match tokens.first() {
            Some(Lexeme::Keyword(Keyword::If)) => self.if_of(tokens, in_loop),
            Some(Lexeme::Keyword(Keyword::While)) => self.while_of(tokens),
            Some(Lexeme::Keyword(Keyword::Switch)) => self.switch_of(tokens),
            Some(Lexeme::Keyword(Keyword::Return)) => return_of(self.alloc, tokens),
            Some(Lexeme::Keyword(Keyword::Exit)) => {
                Ok(RawStmt::Exit(alone(tokens, Keyword::Exit)?))
            }
            Some(Lexeme::Keyword(Keyword::Drop)) => {
                Ok(RawStmt::Drop(alone(tokens, Keyword::Drop)?))
            }
            Some(Lexeme::Keyword(Keyword::Break)) => {
                if in_loop {
                    Ok(RawStmt::Break(alone(tokens, Keyword::Break)?))
                } else {
                    Err(tokens.refuse())
                }
            }
            Some(Lexeme::Mark(Mark::OpenCurly)) => self.group(tokens, in_loop),
            Some(Lexeme::Mark(Mark::Semicolon)) => empty(tokens),
            Some(Lexeme::Variable(_)) => assignment(self.alloc, tokens),
            _ => call_alone(self.alloc, tokens),
        }
    }
}

/// A statement, in which so many may stand inside one another, that one among them.
fn stmt(
    alloc: Global,
    tokens: &mut Tokens<'_>,
    room: usize,
    in_loop: bool,
) -> Result<RawStmt, Fault>
    ensures { Reads (spec.stmt room in_loop tokens.old) result tokens.new }
{
    if room == 0 {
        return Err(tokens.refuse());
    }
    Around {
        alloc,
        room: room - 1,
        stmt,
    }
    .stmt_over(tokens, in_loop)
}

/// The statements of a block.
#[tactic(auto, unfolding(crate::specs::Stmts::body))]
pub fn body(alloc: Global, tokens: &mut Tokens<'_>) -> Result<Items<RawStmt>, Fault>
    ensures { Reads (spec.body tokens.old) result tokens.new }
{
    Around {
        alloc,
        room: DEPTH,
        stmt,
    }
    .stmts(tokens, false)
}
