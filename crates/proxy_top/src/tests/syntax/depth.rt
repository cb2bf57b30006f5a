//! How deep statements and expressions may be nested, and what the first token too deep is.

use super::read;
use pv_values::{Place, ScriptFault};
use std::alloc::{AllocError, Global};
use std::process::Abort;
use std::test::Fail;

/// What nests, what stands inside it, and what closes it; how often it may nest; and where the first token too deep
/// stands behind the beginning, when it nests once more.
struct Nest {
    open: &'static str,
    inside: &'static str,
    close: &'static str,
    most: usize,
    refused: (usize, &'static str),
}

/// In a block: statements 64 deep.
const STATEMENTS: [Nest; 8] = [
    Nest {
        open: "{",
        inside: "",
        close: "}",
        most: 64,
        refused: (64, "{"),
    },
    Nest {
        open: "{",
        inside: ";",
        close: "}",
        most: 63,
        refused: (64, ";"),
    },
    Nest {
        open: "if(1)",
        inside: "exit;",
        close: "",
        most: 63,
        refused: (63 * 5, "if"),
    },
    Nest {
        open: "if(1);else ",
        inside: "exit;",
        close: "",
        most: 63,
        refused: (63 * 11, "if"),
    },
    Nest {
        open: "while(1)",
        inside: "break;",
        close: "",
        most: 63,
        refused: (63 * 8, "while"),
    },
    Nest {
        open: "switch(1){case 1:",
        inside: "",
        close: "}",
        most: 64,
        refused: (64 * 17, "switch"),
    },
    Nest {
        open: "switch(1){default:",
        inside: "break;",
        close: "}",
        most: 63,
        refused: (64 * 18, "break"),
    },
    Nest {
        open: "if(1){",
        inside: "",
        close: "}",
        most: 32,
        refused: (32 * 6, "if"),
    },
];

/// As a value: expressions 32 deep, so 31 brackets and prefix operators.
const EXPRESSIONS: [Nest; 9] = [
    Nest {
        open: "(",
        inside: "1",
        close: ")",
        most: 31,
        refused: (31, "("),
    },
    Nest {
        open: "!",
        inside: "1",
        close: "",
        most: 31,
        refused: (31, "!"),
    },
    Nest {
        open: "not ",
        inside: "1",
        close: "",
        most: 31,
        refused: (31 * 4, "not"),
    },
    Nest {
        open: "-",
        inside: "1",
        close: "",
        most: 31,
        refused: (31, "-"),
    },
    Nest {
        open: "-(",
        inside: "1",
        close: ")",
        most: 15,
        refused: (15 * 2 + 1, "("),
    },
    Nest {
        open: "(",
        inside: "-1",
        close: ")",
        most: 30,
        refused: (31, "-"),
    },
    Nest {
        open: "1+(",
        inside: "1",
        close: ")",
        most: 31,
        refused: (31 * 3 + 2, "("),
    },
    // the brackets and the sign of a call aren't counted
    Nest {
        open: "(",
        inside: "f(-1)",
        close: ")",
        most: 31,
        refused: (31, "("),
    },
    Nest {
        open: "(",
        inside: "uri==myself",
        close: ")",
        most: 31,
        refused: (31, "("),
    },
];

/// So many of this nest, between these texts.
fn nested(
    alloc: Global,
    before: &str,
    nest: &Nest,
    times: usize,
    behind: &str,
) -> Result<String, AllocError> {
    let open = nest.open.repeat(alloc, times)?;
    let close = nest.close.repeat(alloc, times)?;
    let inside = nest.inside;
    format!(in alloc; "{before}{open}{inside}{close}{behind}")
}

/// As many as may nest are taken between these texts, and one more is refused at its place.
fn limits(
    rt: &impl Abort,
    alloc: Global,
    before: &str,
    nests: &[Nest],
    behind: &str,
) -> Result<(), Fail> {
    for nest in nests {
        let open = nest.open;
        let taken = nested(alloc, before, nest, nest.most, behind)?;
        assert!(rt; read(alloc, taken.as_bytes()).is_ok(), "{open}");
        let deeper = nested(alloc, before, nest, nest.most.saturating_add(1), behind)?;
        let from = before.len().saturating_add(nest.refused.0);
        let to = from.saturating_add(nest.refused.1.len());
        let at = Place { from, to };
        let found = read(alloc, deeper.as_bytes()).err();
        assert_eq!(rt; found, Some(ScriptFault::Refused { kind: 3, at }), "{open}");
    }
    Ok(())
}

#[test]
fn statements_nest_64_deep_and_expressions_32(rt: HostRuntime) -> Result<(), Fail> {
    let alloc = rt.alloc();
    limits(&rt, alloc, "route{", &STATEMENTS, "}")?;
    limits(&rt, alloc, "route{return ", &EXPRESSIONS, ";}")?;
    // nor are the brackets of a condition
    limits(&rt, alloc, "route{if(", &EXPRESSIONS, ")exit;}")
}

/// What is closed isn't counted: a hundred of each, one behind the other.
#[test]
fn what_is_closed_is_not_counted(rt: HostRuntime) -> Result<(), Fail> {
    let alloc = rt.alloc();
    for part in &["(-1) + ", "!-1 && ", "-(1) * ", "f('a') == (1) || "] {
        let many = part.repeat(alloc, 100)?;
        let text = format!(in alloc; "route{{return {many}1;}}")?;
        assert!(rt; read(alloc, text.as_bytes()).is_ok(), "{part}");
    }
    for part in &["{{}}", "if(1);else;", "switch(1){case 1:{;}}"] {
        let many = part.repeat(alloc, 100)?;
        let text = format!(in alloc; "route{{{many}}}")?;
        assert!(rt; read(alloc, text.as_bytes()).is_ok(), "{part}");
    }
    Ok(())
}
