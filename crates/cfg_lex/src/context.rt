//! What the tokens before a place allow at it.

ghost use Rattle.std.specs.Prelude.{◌≡◌};
ghost use Rattle.cfg_lex.specs.Contexts.{behind};

use cfg_tree::{Keyword, Lexeme, Mark};

/// What the last one or two tokens were. LISTEN and the names of blocks are tokens after some only.
#[derive(Clone, Copy, Debug, PartialEq, Eq)]
pub enum TokenContext {
    /// Any others, or none.
    Plain,
    /// The name `listen`.
    BehindListen,
    /// The word `route`.
    BehindRoute,
    /// The name `listen` and `=`: LISTEN may stand here.
    Address,
    /// `[`, or the word `route` and `(`: a block's name may stand here.
    BlockName,
}

impl TokenContext {
    /// What is allowed after this token.
    #[tactic(auto, unfolding(crate::specs::Contexts::behind))]
    pub fn behind(self, lexeme: &Lexeme) -> TokenContext
        ensures { result ≡ behind self lexeme.now }
    {
        match lexeme {
            Lexeme::Name(name) if name.bytes() == b"listen".as_slice() =>
                TokenContext::BehindListen,
            Lexeme::Keyword(Keyword::Route) => TokenContext::BehindRoute,
            Lexeme::Mark(Mark::OpenSquare) => TokenContext::BlockName,
            Lexeme::Mark(Mark::OpenRound) if self == TokenContext::BehindRoute =>
                TokenContext::BlockName,
            Lexeme::Mark(Mark::Assign) if self == TokenContext::BehindListen =>
                TokenContext::Address,
            _ => TokenContext::Plain,
        }
    }
}
