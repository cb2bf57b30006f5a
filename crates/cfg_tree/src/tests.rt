//! What transformations make of values, worked out by hand from the rules.

use crate::transform;
use pv_values::{Text, Transformation, Val};
use std::alloc::{AllocError, Global};
use std::test::Fail;

/// A value by a word: `null`, a number, or a text after a `'`.
fn value(alloc: Global, word: &str) -> Result<Val, AllocError> {
    if let Some(text) = word.strip_prefix('\'') {
        Ok(Val::Text(Text::from_slice(alloc, text.as_bytes())?))
    } else if let Ok(n) = word.parse::<i64>() {
        Ok(Val::Int(n))
    } else {
        Ok(Val::Null)
    }
}

fn is_value(a: &Val, b: &Val) -> bool {
    match (a, b) {
        (Val::Null, Val::Null) => true,
        (Val::Int(x), Val::Int(y)) => x == y,
        (Val::Text(s), Val::Text(t)) => s.is_same(t),
        _ => false,
    }
}

const ROWS: [(Transformation, &str, &str); 16] = [
    (Transformation::Length, "null", "null"),
    (Transformation::Length, "'", "0"),
    (Transformation::Length, "'abc", "3"),
    (Transformation::Length, "-12", "3"),
    (Transformation::Number, "null", "null"),
    (Transformation::Number, "'007", "7"),
    (Transformation::Number, "'x", "null"),
    (Transformation::Number, "-5", "-5"),
    (Transformation::UriUser, "'sip:alice@h.com", "'alice"),
    (
        Transformation::UriUser,
        "'SIPS:bob:pw@h.com:5061;lr",
        "'bob",
    ),
    (Transformation::UriUser, "'sip:h.com", "null"),
    (Transformation::UriUser, "'tel:5", "null"),
    (Transformation::UriHost, "'sip:alice@h.com?x=y", "'h.com"),
    (Transformation::UriHost, "'sip:192.0.2.9", "'192.0.2.9"),
    (Transformation::UriHost, "'h.com", "null"),
    (Transformation::UriHost, "5", "null"),
];

#[test]
fn transformations_follow_the_table(rt: HostRuntime) -> Result<(), Fail> {
    let alloc = rt.alloc();
    for (transformation, word, wanted) in &ROWS {
        let found = transform(alloc, *transformation, &value(alloc, word)?)?;
        assert!(rt;
            is_value(&found, &value(alloc, wanted)?),
            "{transformation:?} {word}"
        );
    }
    Ok(())
}
