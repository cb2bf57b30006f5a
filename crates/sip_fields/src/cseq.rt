//! The value of CSeq (RFC 3261, sections 20.16 and 25.1).
ghost use Rattle.std.specs.Prelude.{◌≡◌, ◌≤◌, ◌<◌, length, take, IfSome, IfOk, Ok};
ghost use Rattle.sip_fields.specs.Tail.{or_bad};
ghost use Rattle.sip_fields.specs.CSeq.{cseq_at, IsCSeqBetween};
ghost use Rattle.sip_fields.specs.CSeqGrammar.{IsCSeqAt};

use crate::tail::Bad;
use sip_words::{Class, Span, gap_end, lws_end, number_at, word_end};

/// The value of CSeq: a number below 2^31, and the method.
#[derive(Clone, Copy, Debug, PartialEq, Eq)]
pub struct CSeq {
    pub number: u32,
    pub method: Span,
}

/// The value of CSeq at `from`.
#[tactic(auto, unfolding(crate::specs::CSeq::cseq_at))]
fn cseq_at(text: &[u8], from: usize) -> Option<CSeq>
    requires { from ≤ length text.now }
    ensures value { result ≡ cseq_at text.now from }
    ensures between { IfSome result (IsCSeqBetween from (length text.now)) }
{
    let (number, end) = number_at(text, lws_end(text, from), 10)?;
    if number >= 1 << 31 {
        return None;
    }
    let method = gap_end(text, end)?;
    let method_end = word_end(text, method, Class::Token)?;
    if lws_end(text, method_end) != text.len() {
        return None;
    }
    Some(CSeq {
        number: number as u32,
        method: Span {
            from: method,
            to: method_end,
        },
    })
}

/// The value of CSeq that these bytes are, with LWS round it.
pub fn read_cseq(b: &[u8], at: Span) -> Result<CSeq, Bad>
    requires order { at.from ≤ at.to }
    requires within { at.to ≤ length b.now }
    // What is read is spelled by the grammar, each span being the place of its part.
    ensures found { IfOk result (IsCSeqAt (take at.to b.now) at.from) }
    // What the grammar spells is read, and nothing else can be.
    ensures only { (v : CSeq) → IsCSeqAt (take at.to b.now) at.from v → result ≡ Ok v }
    // The same as a function.
    ensures exact { result ≡ or_bad (cseq_at (take at.to b.now) at.from) }
    // Each span lies in this part of the bytes.
    ensures between { IfOk result (IsCSeqBetween at.from at.to) }
{
    cseq_at(&b[..at.to], at.from).ok_or(Bad)
}
