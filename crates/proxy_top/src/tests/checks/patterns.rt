//! Texts that are no patterns.

use super::{judge, judge_all, refusal};
use pv_values::Place;
use std::alloc::{AllocError, Global};
use std::process::Abort;
use std::test::Fail;

/// Patterns, and what is none.
const PATTERNS: [&str; 24] = [
    "''",
    "'486|408'",
    "'^sip:[0-9]+@'",
    "'(?i)a'",
    "'\\\\d{3}$'",
    "'\u{e9}'",
    "`'('`",
    "`')'`",
    "`\"(\"`",
    "`'a(b'`",
    "`'['`",
    "`'[]'`",
    "`'[z-a]'`",
    "`'*'`",
    "`'+a'`",
    "`'a|?'`",
    "`'a{2,1}'`",
    "`'a{'`",
    "`'\\\\'`",
    "`'\\\\1'`",
    "`'(?=a)'`",
    "`'(?z)'`",
    "`'(?P<n'`",
    "`'[[:foo:]'`",
];

/// What stands before and behind a pattern.
const PLACES: [(&str, &str); 3] = [
    ("route{ return $ru =~ ", "; }"),
    ("route{ if(!(1 && $ru =~ ", ")) exit; }"),
    ("route{} failure_route[X]{ t_check_status(", "); }"),
];

/// What stands so round a string that is no pattern.
const OTHER_PLACES: [(&str, &str); 3] = [
    ("route{ return $ru == ", "; }"),
    ("route{ is_method(", "); }"),
    ("route{ xlog(", "); }"),
];

/// `a` in so many groups, as a string.
fn nested(alloc: Global, open: &str, times: usize) -> Result<String, AllocError> {
    let open = open.repeat(alloc, times)?;
    let close = ")".repeat(alloc, times)?;
    format!(in alloc; "'{open}a{close}'")
}

#[test]
fn a_pattern_is_one_of_regex(rt: HostRuntime) -> Result<(), Fail> {
    let alloc = rt.alloc();
    for (before, behind) in &PLACES {
        judge_all(&rt, alloc, 12, before, &PATTERNS, behind)?;
    }
    for open in &["(", "(?:"] {
        let taken = nested(alloc, open, 250)?;
        let deeper = nested(alloc, open, 251)?;
        let deeper = format!(in alloc; "`{deeper}`")?;
        let rows = [taken.as_str(), deeper.as_str()];
        judge_all(&rt, alloc, 12, "route{ return $ru =~ ", &rows, "; }")?;
    }
    Ok(())
}

/// A string that isn't UTF-8, between these texts: its refusal, and its place.
fn with_bytes(
    alloc: Global,
    before: &str,
    behind: &str,
) -> Result<(Option<(u8, Place)>, Place), AllocError> {
    let mut text = Vec::from_slice(alloc, before.as_bytes())?;
    text.extend_from_slice(b"'a\xff'")?;
    let at = Place {
        from: before.len(),
        to: text.len(),
    };
    text.extend_from_slice(behind.as_bytes())?;
    Ok((refusal(alloc, text.as_slice())?, at))
}

#[test]
fn only_a_pattern_has_to_be_utf_8(rt: HostRuntime) -> Result<(), Fail> {
    let alloc = rt.alloc();
    for (before, behind) in &PLACES {
        let (found, at) = with_bytes(alloc, before, behind)?;
        assert_eq!(rt; found, Some((12, at)), "{before}");
    }
    for (before, behind) in &OTHER_PLACES {
        let (found, _) = with_bytes(alloc, before, behind)?;
        assert_eq!(rt; found, None, "{before}");
    }
    Ok(())
}

/// A pattern that is too large to be built, between what is refused before and behind it.
const TOO_LARGE: [(u8, &str); 4] = [
    (6, "route{ `foo`(); return $ru =~ '\\\\w{1001}'; }"),
    (6, "route{ return $ru =~ '\\\\w{1001}' && `foo`(); }"),
    (
        12,
        "route{} route[X]{ t_check_status('\\\\w{1001}'); return $ru =~ `'('`; }",
    ),
    (14, "route[A]{ t_check_status('\\\\w{1001}'); }``"),
];

#[test]
fn a_refusal_goes_before_a_pattern_that_is_too_large(rt: HostRuntime) -> Result<(), Fail> {
    let alloc = rt.alloc();
    for (kind, row) in &TOO_LARGE {
        judge(&rt, alloc, *kind, "", row, "")?;
    }
    let alone = b"route{ return $ru =~ '\\\\w{1001}'; }";
    assert!(rt; refusal(alloc, alone).is_err());
    Ok(())
}
