//! An example of the one call. The tests over whole texts stand where the crates meet, in `proxy_top`.

use crate::parse;
use cfg_tree::{Keyword, Lexeme, RawItem, Token};
use pv_values::{Place, ScriptFault, Text};
use std::test::Fail;

#[test]
fn a_module_is_read_and_needs_a_name(rt: HostRuntime) -> Result<(), Fail> {
    let alloc = rt.alloc();
    let text = b"loadmodule 'tm'";
    let word = Token {
        lexeme: Lexeme::Keyword(Keyword::Loadmodule),
        at: Place { from: 0, to: 10 },
    };
    let name = Token {
        lexeme: Lexeme::String(Text::from_slice(alloc, b"tm")?),
        at: Place { from: 11, to: 15 },
    };
    let tokens = [word, name];
    let script = parse(alloc, text.as_slice(), tokens.as_slice())?;
    let [RawItem::Module(module)] = script.items.as_slice() else {
        assert!(rt; false);
        return Ok(());
    };
    assert_eq!(rt; module.text.bytes(), b"tm".as_slice());
    let refused = parse(alloc, &text[..10], &tokens[..1]).err();
    let at = Place { from: 10, to: 10 };
    assert_eq!(rt; refused, Some(ScriptFault::Refused { kind: 3, at }));
    Ok(())
}
