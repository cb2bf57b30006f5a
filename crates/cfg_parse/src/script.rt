//! Scripts: parameters, modules and blocks.

ghost use Rattle.std.specs.Prelude.{◌≡◌, []};
ghost use Rattle.cfg_parse.specs.Reader.{Reads, one};
ghost use Rattle.cfg_parse.specs.Calls as calls;
ghost use Rattle.cfg_parse.specs.Script as spec;
ghost use Rattle.cfg_parse.specs.Script.{ReadsAll};

use crate::calls::{block_name, name, number, string};
use crate::fault::Fault;
use crate::repeat::many;
use crate::stmts::body;
use crate::tokens::Tokens;
use cfg_tree::{Keyword, Lexeme, Mark, RawBlock, RawItem, RouteKind, Setting, Token, Word};
use pv_values::{BlockKind, Place};
use sqlite_items::Items;
use std::alloc::Global;

/// The kinds of block that a word begins: without a name, and with one.
#[derive(Clone, Copy)]
pub struct BlockKinds {
    alone: Option<RouteKind>,
    named: Option<RouteKind>,
}

impl BlockKinds {
    fn new(alone: Option<RouteKind>, named: Option<RouteKind>) -> BlockKinds
        ensures { result ≡ record { alone = alone; named = named } }
    {
        BlockKinds { alone, named }
    }
}

/// The kinds of block that a word other than `route` begins.
#[tactic(auto, unfolding(crate::specs::Script::kinds_of))]
fn kinds_of(word: &[u8]) -> BlockKinds
    ensures { result ≡ spec.kinds_of word.now }
{
    let request = Some(RouteKind::Begins(BlockKind::Request));
    let reply = Some(RouteKind::Begins(BlockKind::Reply));
    let branch = Some(RouteKind::Begins(BlockKind::Branch));
    let failure = Some(RouteKind::Begins(BlockKind::Failure));
    let event = Some(RouteKind::Begins(BlockKind::Event));
    if word == b"request_route".as_slice() {
        BlockKinds::new(request, None)
    } else if word == b"reply_route".as_slice() {
        BlockKinds::new(reply, None)
    } else if word == b"onreply_route".as_slice() {
        BlockKinds::new(reply, reply)
    } else if word == b"branch_route".as_slice() {
        BlockKinds::new(None, branch)
    } else if word == b"failure_route".as_slice() {
        BlockKinds::new(None, failure)
    } else if word == b"event_route".as_slice() {
        BlockKinds::new(None, event)
    } else {
        BlockKinds::new(None, None)
    }
}

/// `STRING | NUMBER`
#[tactic(auto, unfolding(crate::specs::Script::value_of, crate::specs::Reader::one, crate::specs::Reader::first, crate::specs::Calls::number, crate::specs::Calls::string))]
fn value(alloc: Global, tokens: &mut Tokens<'_>) -> Result<Setting, Fault>
    ensures { Reads (spec.value_of tokens.old) result tokens.new }
{
    match tokens.first() {
        Some(Lexeme::Number(_)) => Ok(Setting::Number(number(tokens)?)),
        _ => Ok(Setting::String(string(alloc, tokens)?.text)),
    }
}

/// `NUMBER | STRING | NAME | LISTEN`
#[tactic(auto, unfolding(crate::specs::Script::setting_of, crate::specs::Script::value_of, crate::specs::Reader::one, crate::specs::Reader::first, crate::specs::Reader::passed, crate::specs::Calls::name))]
fn setting(alloc: Global, tokens: &mut Tokens<'_>) -> Result<Setting, Fault>
    ensures { Reads (spec.setting_of tokens.old) result tokens.new }
{
    match tokens.first() {
        Some(Lexeme::Name(_)) => Ok(Setting::Name(name(alloc, tokens)?.text)),
        Some(Lexeme::Listen(listen)) => {
            tokens.pass();
            Ok(Setting::Listen(*listen))
        }
        _ => value(alloc, tokens),
    }
}

/// `"loadmodule" STRING [";"]`
#[tactic(auto, unfolding(crate::specs::Script::module_of))]
fn module(alloc: Global, tokens: &mut Tokens<'_>) -> Result<RawItem, Fault>
    ensures { Reads (spec.module_of tokens.old) result tokens.new }
{
    tokens.keyword(Keyword::Loadmodule)?;
    let name = string(alloc, tokens)?;
    tokens.eat_mark(Mark::Semicolon);
    Ok(RawItem::Module(name))
}

/// `"modparam" "(" STRING "," STRING "," ( STRING | NUMBER ) ")" [";"]`
#[tactic(auto, unfolding(crate::specs::Script::module_parameter))]
fn module_parameter(alloc: Global, tokens: &mut Tokens<'_>) -> Result<RawItem, Fault>
    ensures { Reads (spec.module_parameter tokens.old) result tokens.new }
{
    tokens.keyword(Keyword::Modparam)?;
    tokens.mark(Mark::OpenRound)?;
    let module = string(alloc, tokens)?;
    tokens.mark(Mark::Comma)?;
    let name = string(alloc, tokens)?;
    tokens.mark(Mark::Comma)?;
    let value = value(alloc, tokens)?;
    tokens.mark(Mark::CloseRound)?;
    tokens.eat_mark(Mark::Semicolon);
    Ok(RawItem::ModuleParameter(module, name, value))
}

/// `( NUMBER | STRING | NAME | LISTEN ) [";"]`, after `NAME "="`
#[tactic(auto, unfolding(crate::specs::Script::parameter))]
fn parameter(alloc: Global, tokens: &mut Tokens<'_>, name: Word) -> Result<RawItem, Fault>
    ensures { Reads (spec.parameter name tokens.old) result tokens.new }
{
    let value = setting(alloc, tokens)?;
    tokens.eat_mark(Mark::Semicolon);
    Ok(RawItem::Parameter(name, value))
}

/// `[ "[" BNAME "]" ]`, after the word that begins a block. A name where the word takes none, and what is no
/// name where the word takes one, is a fault by itself.
#[tactic(auto, unfolding(crate::specs::Script::head_of))]
fn head(
    alloc: Global,
    tokens: &mut Tokens<'_>,
    kinds: BlockKinds,
) -> Result<(RouteKind, Option<Word>), Fault>
    ensures { Reads (spec.head_of kinds tokens.old) result tokens.new }
{
    let Some(Lexeme::Mark(Mark::OpenSquare)) = tokens.first() else {
        return match kinds.alone {
            Some(kind) => Ok((kind, None)),
            None => Err(tokens.refuse()),
        };
    };
    let Some(kind) = kinds.named else {
        return Err(tokens.refuse());
    };
    tokens.mark(Mark::OpenSquare)?;
    let name = block_name(alloc, tokens)?;
    tokens.mark(Mark::CloseSquare)?;
    Ok((kind, Some(name)))
}

/// `[ "[" BNAME "]" ] "{" { stmt } "}"`, after the word that begins the block, which stands at `kind_at`
#[tactic(auto, unfolding(crate::specs::Script::block))]
fn block(
    alloc: Global,
    tokens: &mut Tokens<'_>,
    start: &[Token],
    kind_at: Place,
    kinds: BlockKinds,
) -> Result<RawItem, Fault>
    ensures { Reads (spec.block start.now kind_at kinds tokens.old) result tokens.new }
{
    let (kind, name) = head(alloc, tokens, kinds)?;
    tokens.mark(Mark::OpenCurly)?;
    let body = body(alloc, tokens)?;
    tokens.mark(Mark::CloseCurly)?;
    Ok(RawItem::Block(RawBlock {
        kind,
        name,
        kind_at,
        at: tokens.since(start),
        body,
    }))
}

/// A block that begins with `route`.
#[tactic(auto, unfolding(crate::specs::Script::route_block, crate::specs::Reader::one, crate::specs::Reader::first, crate::specs::Reader::next, crate::specs::Reader::passed))]
fn route_block(alloc: Global, tokens: &mut Tokens<'_>) -> Result<RawItem, Fault>
    ensures { Reads (spec.route_block tokens.old) result tokens.new }
{
    let start = tokens.here();
    let Some(Lexeme::Keyword(Keyword::Route)) = tokens.first() else {
        return Err(tokens.refuse());
    };
    let at = tokens.pass();
    let request = Some(RouteKind::Begins(BlockKind::Request));
    let kinds = BlockKinds::new(request, Some(RouteKind::Route));
    block(alloc, tokens, start, at, kinds)
}

/// A parameter or a block that begins with a name.
#[tactic(auto, unfolding(crate::specs::Script::named_item))]
fn named_item(alloc: Global, tokens: &mut Tokens<'_>) -> Result<RawItem, Fault>
    ensures { Reads (spec.named_item tokens.old) result tokens.new }
{
    let start = tokens.here();
    let name = name(alloc, tokens)?;
    if tokens.eat_mark(Mark::Assign) {
        parameter(alloc, tokens, name)
    } else {
        block(alloc, tokens, start, name.at, kinds_of(name.text.bytes()))
    }
}

/// A parameter, a module or a block.
#[tactic(auto, unfolding(crate::specs::Script::read_item))]
fn item(alloc: Global, tokens: &mut Tokens<'_>) -> Result<RawItem, Fault>
    ensures { Reads (spec.read_item tokens.old) result tokens.new }
{
    match tokens.first() {
        Some(Lexeme::Keyword(Keyword::Loadmodule)) => module(alloc, tokens),
        Some(Lexeme::Keyword(Keyword::Modparam)) => module_parameter(alloc, tokens),
        Some(Lexeme::Keyword(Keyword::Route)) => route_block(alloc, tokens),
        _ => named_item(alloc, tokens),
    }
}

/// The next of them, if any token is left.
#[tactic(auto, unfolding(crate::specs::Script::next_item))]
fn next_item(alloc: Global, tokens: &mut Tokens<'_>) -> Result<Option<RawItem>, Fault>
    ensures { Reads (spec.next_item tokens.old) result tokens.new }
{
    match tokens.first() {
        None => Ok(None),
        Some(_) => Ok(Some(item(alloc, tokens)?)),
    }
}

/// Parameters, modules and blocks: those of all the tokens of a text of this length.
#[tactic(auto, unfolding(crate::specs::Script::script_at, crate::specs::Script::items))]
pub fn script(alloc: Global, tokens: &[Token], end: usize) -> Result<Items<RawItem>, Fault>
    ensures { ReadsAll (spec.script_at tokens.now) result }
{
    let mut tokens = Tokens::new(tokens, end);
    let items = many(
        &mut tokens,
        Items::new(alloc),
        |tokens| next_item(alloc, tokens),
    )?;
    if tokens.count() > 0 {
        return Err(tokens.refuse());
    }
    Ok(items)
}
