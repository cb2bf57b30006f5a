//! The tokens of a text, one after the other.

ghost use Rattle.std.specs.Prelude.{◌≡◌, ◌≤◌, ◌<◌, ◌+◌, ◌-◌, length, IfOk, IfErr};
ghost use Rattle.cfg_lex.specs.Shapes.{WrongEndsIn, refused};
ghost use Rattle.cfg_lex.specs.Tokens.{TokensOf, IsFaultOf};

use crate::context::TokenContext;
use crate::found::{begins_line, found_at, lexeme_of};
use crate::shape::{Found, Wrong};
use cfg_tree::{RefusalKind, Token};
use pv_values::{Place, ScriptFault};
use std::alloc::Global;

/// How long a text may be: 1 MiB.
const LONGEST: usize = 1_048_576;

/// The refusal of what stands at `at` in a text of this length.
fn refused(at: usize, len: usize, wrong: Wrong) -> ScriptFault
    requires within { at ≤ len }
    requires wrong { WrongEndsIn (len - at) wrong }
    requires short { len < 4294967296 }
    ensures { result ≡ refused at len wrong }
{
    match wrong {
        Wrong::BadByte { from, to } => ScriptFault::Refused {
            kind: RefusalKind::BadByte.number(),
            at: Place {
                from: at + from,
                to: at + to,
            },
        },
        Wrong::Unclosed => ScriptFault::Refused {
            kind: RefusalKind::Unclosed.number(),
            at: Place { from: at, to: len },
        },
    }
}

/// The tokens of the text, or its first fault.
pub fn tokens_in(alloc: Global, text: &[u8]) -> Result<Vec<Token>, ScriptFault>
    ensures found { IfOk result (λ v. TokensOf text.now v.items) }
    ensures fault { IfErr result (IsFaultOf text.now) }
{
    if text.len() > LONGEST {
        return Err(ScriptFault::Refused {
            kind: RefusalKind::TooLarge.number(),
            at: Place {
                from: LONGEST,
                to: text.len(),
            },
        });
    }
    let mut tokens = Vec::new(alloc);
    let mut context = TokenContext::Plain;
    let mut at = 0;
    while at < text.len() {
        let (shape, len) = match found_at(&text[at..], begins_line(text, at), context) {
            Err(wrong) => return Err(refused(at, text.len(), wrong)),
            Ok(Found::Gap(len)) => {
                at += len;
                continue;
            }
            Ok(Found::Token(shape, len)) => (shape, len),
        };
        let Ok(lexeme) = lexeme_of(alloc, &text[at..], shape, len) else {
            return Err(ScriptFault::NoMemory);
        };
        context = context.behind(&lexeme);
        let place = Place {
            from: at,
            to: at + len,
        };
        let Ok(()) = tokens.push(Token { lexeme, at: place }) else {
            return Err(ScriptFault::NoMemory);
        };
        at += len;
    }
    Ok(tokens)
}
