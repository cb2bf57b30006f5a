//! Bytes, cut at the first of a kind.
ghost use Rattle.std.specs.Prelude.{IfSome, IfNone};
ghost use Rattle.sip_words.specs.Splits.{SplitsAt, Lacks};

/// What stands before and behind the first of these bytes.
pub fn split_once(bytes: &[u8], byte: u8) -> Option<(&[u8], &[u8])>
    ensures found { IfSome result (λ parts. SplitsAt byte bytes.now parts.0.now parts.1.now) }
    ensures none { IfNone result (Lacks byte bytes.now) }
{
    let at = bytes.iter().position(|b| *b == byte)?;
    Some((&bytes[..at], &bytes[at + 1..]))
}
