//! Trees as texts, in brackets round each node.

use super::read;
use cfg_tree::{
    Listen, RawArg, RawBlock, RawCall, RawExpr, RawItem, RawStmt, RawVariable, RouteKind, Setting,
    Word,
};
use pv_values::{BinOp, BlockKind, Place, Text, Val};
use std::alloc::{AllocError, Global};

/// The tree of a script, as a text, or `refused`.
pub fn tree(alloc: Global, text: &str) -> Result<String, AllocError> {
    printed(alloc, text, false)
}

/// The same, with the place of each node that has one: `@FROM-TO`.
pub fn tree_with_places(alloc: Global, text: &str) -> Result<String, AllocError> {
    printed(alloc, text, true)
}

fn printed(alloc: Global, text: &str, places: bool) -> Result<String, AllocError> {
    let mut shown = Shown {
        out: String::new(alloc),
        places,
    };
    match read(alloc, text.as_bytes()) {
        Ok(script) => shown.items(script.items.as_slice())?,
        Err(_) => shown.add("refused")?,
    }
    Ok(shown.out)
}

#[derive(Drop)]
struct Shown {
    out: String,
    places: bool,
}

impl Shown {
    fn add(&mut self, text: &str) -> Result<(), AllocError> {
        self.out.push_str(text)
    }

    fn text(&mut self, text: &Text) -> Result<(), AllocError> {
        self.add(std::str::from_utf8(text.bytes()).unwrap_or("?"))
    }

    fn quoted(&mut self, text: &Text) -> Result<(), AllocError> {
        self.add("'")?;
        self.text(text)?;
        self.add("'")
    }

    fn number(&mut self, n: i64) -> Result<(), AllocError> {
        write!(self.out, "{n}")
    }

    fn place(&mut self, at: Place) -> Result<(), AllocError> {
        let Place { from, to } = at;
        if self.places {
            write!(self.out, "@{from}-{to}")?;
        }
        Ok(())
    }

    /// A string that stands somewhere.
    fn string(&mut self, word: &Word) -> Result<(), AllocError> {
        self.quoted(&word.text)?;
        self.place(word.at)
    }

    /// A name that stands somewhere.
    fn name(&mut self, word: &Word) -> Result<(), AllocError> {
        self.text(&word.text)?;
        self.place(word.at)
    }

    fn variable(&mut self, v: &RawVariable) -> Result<(), AllocError> {
        let transformed = v.variable.transformation.is_some();
        self.add(if transformed { "$(" } else { "$" })?;
        self.text(&v.variable.name)?;
        if let Some(inner) = &v.variable.inner {
            self.add("(")?;
            self.text(inner)?;
            self.add(")")?;
        }
        if let Some(transformation) = &v.variable.transformation {
            self.add("{")?;
            self.text(transformation)?;
            self.add("})")?;
        }
        self.place(v.at)
    }

    fn argument(&mut self, argument: &RawArg) -> Result<(), AllocError> {
        match argument {
            RawArg::String(word) => self.string(word),
            RawArg::Number(n) => self.number(*n),
            RawArg::Variable(v) => self.variable(v),
        }
    }

    fn call(&mut self, call: &RawCall) -> Result<(), AllocError> {
        match call {
            RawCall::Function(name, arguments) => {
                self.add("(call ")?;
                self.name(name)?;
                for argument in arguments.as_slice() {
                    self.add(" ")?;
                    self.argument(argument)?;
                }
            }
            RawCall::Route(name) => {
                self.add("(go ")?;
                self.name(name)?;
            }
        }
        self.add(")")
    }

    #[cycle(shown_exprs)]
    fn expr(&mut self, e: &RawExpr) -> Result<(), AllocError> {
        match e {
            RawExpr::Number(n) => self.number(*n),
            RawExpr::String(word) => self.string(word),
            RawExpr::Variable(v) => self.variable(v),
            RawExpr::Call(call) => self.call(call),
            RawExpr::Not(a) => {
                self.add("(! ")?;
                self.expr(a.get())?;
                self.add(")")
            }
            RawExpr::Negative(a) => {
                self.add("(neg ")?;
                self.expr(a.get())?;
                self.add(")")
            }
            RawExpr::Chain(a, links) => {
                self.add("(")?;
                self.expr(a.get())?;
                for link in links.as_slice() {
                    self.add(operator(link.0))?;
                    self.expr(&link.1)?;
                }
                self.add(")")
            }
            RawExpr::Matches(a, pattern) => {
                self.add("(")?;
                self.expr(a.get())?;
                self.add(" =~ ")?;
                self.string(pattern)?;
                self.add(")")
            }
            RawExpr::All(operands) => {
                self.add("(&&")?;
                self.operands(operands.as_slice())
            }
            RawExpr::Any(operands) => {
                self.add("(||")?;
                self.operands(operands.as_slice())
            }
            RawExpr::Myself(is) => self.add(if *is {
                "(uri == myself)"
            } else {
                "(uri != myself)"
            }),
        }
    }

    #[cycle(shown_exprs)]
    fn operands(&mut self, operands: &[RawExpr]) -> Result<(), AllocError> {
        for operand in operands {
            self.add(" ")?;
            self.expr(operand)?;
        }
        self.add(")")
    }

    fn head(&mut self, what: &str, at: Place) -> Result<(), AllocError> {
        self.add("(")?;
        self.add(what)?;
        self.place(at)
    }

    fn test(&mut self, what: &str, at: Place, e: &RawExpr) -> Result<(), AllocError> {
        self.head(what, at)?;
        self.add(" ")?;
        self.expr(e)
    }

    fn label(&mut self, label: &Val) -> Result<(), AllocError> {
        self.add(" (case ")?;
        match label {
            Val::Null => self.add("null"),
            Val::Int(n) => self.number(*n),
            Val::Text(text) => self.quoted(text),
        }
    }

    #[cycle(shown_stmts)]
    fn stmt(&mut self, s: &RawStmt) -> Result<(), AllocError> {
        match s {
            RawStmt::If(at, e, first, other) => {
                self.test("if", *at, e)?;
                self.add(" ")?;
                self.stmt(first.get())?;
                if let Some(other) = other {
                    self.add(" else ")?;
                    self.stmt(other.get())?;
                }
            }
            RawStmt::While(at, e, body) => {
                self.test("while", *at, e)?;
                self.add(" ")?;
                self.stmt(body.get())?;
            }
            RawStmt::Switch(at, e, cases, default) => {
                self.test("switch", *at, e)?;
                for case in cases.as_slice() {
                    self.label(&case.0)?;
                    self.stmts(case.1.as_slice())?;
                    self.add(")")?;
                }
                self.add(" (default")?;
                self.stmts(default.as_slice())?;
                self.add(")")?;
            }
            RawStmt::Set(at, to, e) => {
                self.head("set", *at)?;
                self.add(" ")?;
                self.variable(to)?;
                self.add(" ")?;
                self.expr(e)?;
            }
            RawStmt::Do(at, call) => {
                self.head("do", *at)?;
                self.add(" ")?;
                self.call(call)?;
            }
            RawStmt::Return(at, None) => self.head("return", *at)?,
            RawStmt::Return(at, Some(e)) => self.test("return", *at, e)?,
            RawStmt::Exit(at) => self.head("exit", *at)?,
            RawStmt::Drop(at) => self.head("drop", *at)?,
            RawStmt::Break(at) => self.head("break", *at)?,
            RawStmt::Group(at, stmts) => {
                self.head("group", *at)?;
                self.stmts(stmts.as_slice())?;
            }
            RawStmt::Empty(at) => self.head(";", *at)?,
        }
        self.add(")")
    }

    /// A blank before each of them.
    #[cycle(shown_stmts)]
    fn stmts(&mut self, stmts: &[RawStmt]) -> Result<(), AllocError> {
        for s in stmts {
            self.add(" ")?;
            self.stmt(s)?;
        }
        Ok(())
    }

    fn setting(&mut self, value: &Setting) -> Result<(), AllocError> {
        match value {
            Setting::Number(n) => self.number(*n),
            Setting::String(text) => self.quoted(text),
            Setting::Name(text) => self.text(text),
            Setting::Listen(Listen { ip, port }) => {
                let [a, b, c, d] = ip.to_be_bytes();
                write!(self.out, "udp:{a}.{b}.{c}.{d}:{port}")
            }
        }
    }

    fn block(&mut self, block: &RawBlock) -> Result<(), AllocError> {
        self.head(kind(block.kind), block.at)?;
        if self.places {
            self.add(" word")?;
            self.place(block.kind_at)?;
        }
        if let Some(name) = &block.name {
            self.add(" [")?;
            self.name(name)?;
            self.add("]")?;
        }
        self.stmts(block.body.as_slice())
    }

    fn item(&mut self, item: &RawItem) -> Result<(), AllocError> {
        match item {
            RawItem::Parameter(name, value) => {
                self.add("(param ")?;
                self.name(name)?;
                self.add(" ")?;
                self.setting(value)?;
            }
            RawItem::Module(name) => {
                self.add("(load ")?;
                self.string(name)?;
            }
            RawItem::ModuleParameter(module, name, value) => {
                self.add("(modparam ")?;
                self.string(module)?;
                self.add(" ")?;
                self.string(name)?;
                self.add(" ")?;
                self.setting(value)?;
            }
            RawItem::Block(block) => self.block(block)?,
        }
        self.add(")")
    }

    /// A blank between them.
    fn items(&mut self, items: &[RawItem]) -> Result<(), AllocError> {
        for item in items {
            if !self.out.is_empty() {
                self.add(" ")?;
            }
            self.item(item)?;
        }
        Ok(())
    }
}

fn operator(op: BinOp) -> &'static str {
    match op {
        BinOp::Add => " + ",
        BinOp::Sub => " - ",
        BinOp::Mul => " * ",
        BinOp::Div => " / ",
        BinOp::Rem => " mod ",
        BinOp::Eq => " == ",
        BinOp::Ne => " != ",
        BinOp::Lt => " < ",
        BinOp::Gt => " > ",
        BinOp::Le => " <= ",
        BinOp::Ge => " >= ",
    }
}

fn kind(kind: RouteKind) -> &'static str {
    match kind {
        RouteKind::Route => "route",
        RouteKind::Begins(BlockKind::Request) => "request",
        RouteKind::Begins(BlockKind::Branch) => "branch",
        RouteKind::Begins(BlockKind::Failure) => "failure",
        RouteKind::Begins(BlockKind::Reply) => "reply",
        RouteKind::Begins(BlockKind::Event) => "event",
    }
}
