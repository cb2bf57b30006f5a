//! What the operators give, worked out by hand from the rules.

use crate::{
    BinOp, BlockKind, FuncName, Pattern, PatternFault, Patterns, PvUse, Text, Val, as_int, as_text,
    binary, truth,
};
use std::alloc::{AllocError, Global};
use std::test::Fail;

/// A value by a word: `null`, a number, or a text after a `'`.
fn value(alloc: Global, word: &str) -> Result<Val, AllocError> {
    if let Some(text) = word.strip_prefix('\'') {
        Ok(Val::Text(Text::from_slice(alloc, text.as_bytes())?))
    } else if let Ok(n) = word.parse::<i64>() {
        Ok(Val::Int(n))
    } else {
        Ok(Val::Null)
    }
}

fn is_value(a: &Val, b: &Val) -> bool {
    match (a, b) {
        (Val::Null, Val::Null) => true,
        (Val::Int(x), Val::Int(y)) => x == y,
        (Val::Text(s), Val::Text(t)) => s.is_same(t),
        _ => false,
    }
}

fn gives(alloc: Global, row: &(BinOp, &str, &str, &str)) -> Result<bool, AllocError> {
    let (op, left, right, wanted) = *row;
    let found = binary(alloc, op, &value(alloc, left)?, &value(alloc, right)?)?;
    Ok(is_value(&found, &value(alloc, wanted)?))
}

const GREATEST: &str = "9223372036854775807";

const LEAST: &str = "-9223372036854775808";

const SUMS: [(BinOp, &str, &str, &str); 18] = [
    (BinOp::Add, "null", "5", "null"),
    (BinOp::Add, "null", "'a", "null"),
    (BinOp::Add, "null", "null", "null"),
    (BinOp::Add, "2", "3", "5"),
    (BinOp::Add, "2", "'3", "5"),
    (BinOp::Add, "2", "'x", "null"),
    (BinOp::Add, "2", "null", "null"),
    (BinOp::Add, GREATEST, "1", "null"),
    (BinOp::Add, LEAST, "-1", "null"),
    (BinOp::Add, LEAST, GREATEST, "-1"),
    (BinOp::Add, GREATEST, "'-9223372036854775808", "-1"),
    (BinOp::Add, "'a", "'b", "'ab"),
    (BinOp::Add, "'a", "5", "'a5"),
    (BinOp::Add, "'5", "3", "'53"),
    (BinOp::Add, "'a", "-7", "'a-7"),
    (BinOp::Add, "'a", LEAST, "'a-9223372036854775808"),
    (BinOp::Add, "'a", "null", "'a<null>"),
    (BinOp::Add, "'", "'", "'"),
];

const PRODUCTS: [(BinOp, &str, &str, &str); 27] = [
    (BinOp::Sub, "5", "7", "-2"),
    (BinOp::Sub, "'5", "'7", "-2"),
    (BinOp::Sub, "'x", "1", "null"),
    (BinOp::Sub, "1", "null", "null"),
    (BinOp::Sub, "null", "1", "null"),
    (BinOp::Sub, LEAST, "1", "null"),
    (BinOp::Sub, "0", LEAST, "null"),
    (BinOp::Mul, "3", "-4", "-12"),
    (BinOp::Mul, "'3", "4", "12"),
    (BinOp::Mul, "4611686018427387904", "2", "null"),
    (BinOp::Mul, "-4611686018427387904", "2", LEAST),
    (BinOp::Mul, LEAST, "-1", "null"),
    (BinOp::Mul, "null", "0", "null"),
    (BinOp::Div, "7", "2", "3"),
    (BinOp::Div, "-7", "2", "-3"),
    (BinOp::Div, "7", "-2", "-3"),
    (BinOp::Div, "7", "0", "null"),
    (BinOp::Div, "'7", "'2", "3"),
    (BinOp::Div, LEAST, "-1", "null"),
    (BinOp::Rem, "7", "2", "1"),
    (BinOp::Rem, "-7", "2", "-1"),
    (BinOp::Rem, "7", "-2", "1"),
    (BinOp::Rem, "7", "0", "null"),
    (BinOp::Rem, "7", "null", "null"),
    (BinOp::Rem, LEAST, "-1", "0"),
    (BinOp::Rem, LEAST, GREATEST, "-1"),
    (BinOp::Rem, "'x", "-1", "null"),
];

const COMPARISONS: [(BinOp, &str, &str, &str); 32] = [
    (BinOp::Eq, "null", "null", "1"),
    (BinOp::Eq, "null", "0", "0"),
    (BinOp::Eq, "'", "null", "0"),
    (BinOp::Eq, "null", "'<null>", "0"),
    (BinOp::Eq, "5", "5", "1"),
    (BinOp::Eq, "5", "'5", "1"),
    (BinOp::Eq, "'05", "5", "1"),
    (BinOp::Eq, "'05", "'5", "0"),
    (BinOp::Eq, "5", "'x", "0"),
    (BinOp::Eq, "0", "'-0", "1"),
    (BinOp::Eq, "0", "'", "0"),
    (BinOp::Eq, "'a", "'A", "0"),
    (BinOp::Eq, "'ab", "'a", "0"),
    (BinOp::Ne, "null", "null", "0"),
    (BinOp::Ne, "null", "0", "1"),
    (BinOp::Ne, "5", "'x", "1"),
    (BinOp::Ne, "5", "'5", "0"),
    (BinOp::Lt, "1", "2", "1"),
    (BinOp::Lt, "2", "2", "0"),
    (BinOp::Lt, "'9", "'10", "1"),
    (BinOp::Lt, "'a", "'b", "0"),
    (BinOp::Lt, "null", "1", "0"),
    (BinOp::Lt, LEAST, GREATEST, "1"),
    (BinOp::Gt, "2", "1", "1"),
    (BinOp::Gt, "2", "'x", "0"),
    (BinOp::Le, "2", "2", "1"),
    (BinOp::Le, "'3", "2", "0"),
    (BinOp::Le, "null", "null", "0"),
    (BinOp::Ge, "2", "2", "1"),
    (BinOp::Ge, "1", "2", "0"),
    (BinOp::Ge, "'", "0", "0"),
    (BinOp::Ge, "0", "null", "0"),
];

#[test]
fn operators_follow_the_table(rt: HostRuntime) -> Result<(), Fail> {
    for row in &SUMS {
        assert!(rt; gives(rt.alloc(), row)?, "{row:?}");
    }
    for row in &PRODUCTS {
        assert!(rt; gives(rt.alloc(), row)?, "{row:?}");
    }
    for row in &COMPARISONS {
        assert!(rt; gives(rt.alloc(), row)?, "{row:?}");
    }
    Ok(())
}

const NUMBERS: [(&str, Option<i64>); 18] = [
    ("null", None),
    ("-3", Some(-3)),
    ("'0", Some(0)),
    ("'-0", Some(0)),
    ("'00012", Some(12)),
    ("'9223372036854775807", Some(9223372036854775807)),
    ("'9223372036854775808", None),
    ("'-9223372036854775808", Some(-9223372036854775808)),
    ("'-9223372036854775809", None),
    ("'18446744073709551617", None),
    ("'", None),
    ("'-", None),
    ("'--5", None),
    ("'+5", None),
    ("' 5", None),
    ("'5 ", None),
    ("'0x1", None),
    ("'1e3", None),
];

#[test]
fn texts_read_as_numbers(rt: HostRuntime) -> Result<(), Fail> {
    for (word, number) in &NUMBERS {
        assert_eq!(rt; as_int(&value(rt.alloc(), word)?), *number, "{word}");
    }
    Ok(())
}

const TRUTHS: [(&str, bool); 6] = [
    ("null", false),
    ("0", false),
    ("-1", true),
    ("'", false),
    ("'0", true),
    ("'a", true),
];

#[test]
fn values_are_true_or_false(rt: HostRuntime) -> Result<(), Fail> {
    for (word, is_true) in &TRUTHS {
        assert_eq!(rt; truth(&value(rt.alloc(), word)?), *is_true, "{word}");
    }
    let text = as_text(rt.alloc(), &Val::Null)?;
    assert_eq!(rt; text.bytes(), b"<null>".as_slice());
    let text = as_text(rt.alloc(), &Val::Int(-9223372036854775808))?;
    assert_eq!(rt; text.bytes(), b"-9223372036854775808".as_slice());
    Ok(())
}

#[test]
fn a_text_above_8192_bytes_is_null(rt: HostRuntime) -> Result<(), Fail> {
    let alloc = rt.alloc();
    let long = Val::Text(Text::of(vec![in alloc; b'x'; 8191]?));
    let one_more = binary(alloc, BinOp::Add, &long, &Val::Int(5))?;
    assert_eq!(rt; as_text(alloc, &one_more)?.bytes().len(), 8192);
    let two_more = binary(alloc, BinOp::Add, &long, &Val::Int(55))?;
    assert!(rt; is_value(&two_more, &Val::Null));
    Ok(())
}

#[test]
fn patterns_match_anywhere_with_case_kept(rt: HostRuntime) -> Result<(), Fail> {
    let alloc = rt.alloc();
    let rows = [
        ("486|408", "x408", true),
        ("486|408", "480", false),
        ("^4.6$", "486", true),
        ("a", "A", false),
        ("", "", true),
    ];
    for (source, text, wanted) in &rows {
        let Ok(pattern) = Pattern::new(alloc, source.as_bytes()) else {
            return Err("no pattern".into());
        };
        assert_eq!(rt;
            pattern.is_match(alloc, text.as_bytes())?,
            *wanted,
            "{source}"
        );
    }
    assert!(rt; matches!(Pattern::new(alloc, b"("), Err(PatternFault::NotAPattern)));
    assert!(rt; matches!(Pattern::new(alloc, b"\xff"), Err(PatternFault::NotAPattern)));
    Ok(())
}

fn pattern(alloc: Global, source: &[u8]) -> Result<Pattern, Fail> {
    match Pattern::new(alloc, source) {
        Ok(pattern) => Ok(pattern),
        Err(_) => Err("no pattern".into()),
    }
}

#[test]
fn a_matcher_is_kept_from_match_to_match(rt: HostRuntime) -> Result<(), Fail> {
    let alloc = rt.alloc();
    let mut list = Vec::new(alloc);
    list.push(pattern(alloc, b"486|408")?)?;
    list.push(pattern(alloc, b"^sip:")?)?;
    let patterns = Patterns::of(list);
    let mut matchers = patterns.matchers(alloc)?;
    for _ in 0..3 {
        assert_eq!(rt; matchers.is_match(0, b"408"), Some(true));
        assert_eq!(rt; matchers.is_match(0, b"sip:a"), Some(false));
        assert_eq!(rt; matchers.is_match(1, b"sip:a"), Some(true));
        assert_eq!(rt; matchers.is_match(2, b"sip:a"), None);
    }
    Ok(())
}

#[test]
fn functions_and_variables_know_their_blocks(rt: HostRuntime) {
    assert!(rt; FuncName::TRelay.stands_in(BlockKind::Failure));
    assert!(rt; !FuncName::TRelay.stands_in(BlockKind::Branch));
    assert!(rt; !FuncName::TContinue.stands_in(BlockKind::Branch));
    assert!(rt; FuncName::TContinue.stands_in(BlockKind::Event));
    assert!(rt; PvUse::RequestUri.is_written_in(BlockKind::Branch));
    assert!(rt; !PvUse::RequestUri.is_written_in(BlockKind::Reply));
    assert!(rt; !PvUse::CallId.is_written_in(BlockKind::Request));
}
