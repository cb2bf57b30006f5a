//! Scripts that the check accepts, and where it refuses others. What is expected is worked out by hand from the rules
//! of the language.
//!
//! In each row the part that is refused stands between two backquotes, which are no part of the text. A row without
//! them is accepted.

mod blocks;
mod functions;
mod limits;
mod order;
mod patterns;
mod scripts;
mod settings;
mod variables;

use crate::accept::accepted;
use pv_values::{Place, ScriptFault};
use std::alloc::{AllocError, Global};
use std::process::Abort;
use std::test::Fail;

/// What begins a `route[NAME]`, from which every function may be called.
const ROUTE: &str = "route{} route[X]{";

/// What begins a block of each other kind, with the letter of the kind.
const BEGINNINGS: [(&str, &str); 8] = [
    ("R", "request_route{"),
    ("R", "route{"),
    ("B", "route{} branch_route[X]{"),
    ("F", "route{} failure_route[X]{"),
    ("O", "route{} reply_route{"),
    ("O", "route{} onreply_route{"),
    ("O", "route{} onreply_route[X]{"),
    ("E", "route{} event_route[X]{"),
];

/// What ends it: a block of each kind that has a name, and a table.
const END: &str =
    "} route[A]{} branch_route[B]{} failure_route[F]{} onreply_route[O]{} event_route[E]{}
    modparam('htable', 'htable', 't=>')";

/// The kind and the place of the refusal of a text, where it is refused.
fn refusal(alloc: Global, text: &[u8]) -> Result<Option<(u8, Place)>, AllocError> {
    match accepted(alloc, text) {
        Ok(_) => Ok(None),
        Err(ScriptFault::Refused { kind, at }) => Ok(Some((kind, at))),
        Err(ScriptFault::NoMemory) => Err(AllocError),
    }
}

/// A text, and the place between the two backquotes in it, where it has them.
fn marked(alloc: Global, row: &str) -> Result<(Vec<u8>, Option<Place>), AllocError> {
    let mut text = Vec::new(alloc);
    let mut from = None;
    let mut to = 0;
    for byte in row.as_bytes() {
        if *byte != b'`' {
            text.push(*byte)?;
        } else if from.is_none() {
            from = Some(text.len());
        } else {
            to = text.len();
        }
    }
    Ok((text, from.map(|from| Place { from, to })))
}

/// The row, between two other texts, is refused with this kind at its mark, or accepted where it has none.
fn judge(
    rt: &impl Abort,
    alloc: Global,
    kind: u8,
    before: &str,
    row: &str,
    behind: &str,
) -> Result<(), Fail> {
    let whole = format!(in alloc; "{before}{row}{behind}")?;
    let (text, mark) = marked(alloc, whole.as_str())?;
    let found = refusal(alloc, text.as_slice())?;
    assert_eq!(rt; found, mark.map(|at| (kind, at)), "{row}");
    Ok(())
}

/// So is each of these rows.
fn judge_all(
    rt: &impl Abort,
    alloc: Global,
    kind: u8,
    before: &str,
    rows: &[&str],
    behind: &str,
) -> Result<(), Fail> {
    for row in rows {
        judge(rt, alloc, kind, before, row, behind)?;
    }
    Ok(())
}

/// The row without its marks.
fn unmarked(alloc: Global, row: &str) -> Result<String, AllocError> {
    let mut text = String::new(alloc);
    for c in row.chars() {
        if c != '`' {
            text.push(c)?;
        }
    }
    Ok(text)
}

/// The row is accepted between two other texts where it may stand there, and else refused with this kind at its mark.
fn judge_where(
    rt: &impl Abort,
    alloc: Global,
    may_stand: bool,
    kind: u8,
    before: &str,
    row: &str,
) -> Result<(), Fail> {
    if may_stand {
        let plain = unmarked(alloc, row)?;
        judge(rt, alloc, kind, before, plain.as_str(), END)
    } else {
        judge(rt, alloc, kind, before, row, END)
    }
}
