//! A cursor over tokens.

ghost use Rattle.std.specs.Prelude.{◌≡◌, length, IfSome};
ghost use Rattle.std.specs.Option.{option_copied};
ghost use Rattle.cfg_parse.specs.Reader as spec;
ghost use Rattle.cfg_parse.specs.Reader.{Reads};
ghost use Rattle.cfg_tree.specs.Tokens as tree;

use crate::fault::Fault;
use cfg_tree::{Keyword, Lexeme, Mark, Token};
use pv_values::Place;
use std::marker::Model;

/// The tokens that are left. Contracts see the list of them.
#[derive(Drop)]
pub struct Tokens<'a> {
    left: &'a [Token],
    /// The length of the text.
    end: usize,
}

impl<'a> Model for Tokens<'a> {
    ghost use Rattle.std.specs.Prelude.{List};
    ghost use Rattle.cfg_tree.specs.declared.token.Token.{Token};

    ghost Value = { List Token };

    ghost view = { λ t. t.left.now };
}

impl<'a> Tokens<'a> {
    pub fn new(tokens: &'a [Token], end: usize) -> Tokens<'a>
        ensures { result ≡ tokens.now }
    {
        Tokens { left: tokens, end }
    }

    /// How many are left.
    pub fn count(&self) -> usize
        ensures { result ≡ length self.now }
    {
        self.left.len()
    }

    /// What the next token is, if there is one.
    #[tactic(auto, unfolding(crate::specs::Reader::first))]
    pub fn first(&self) -> Option<&'a Lexeme>
        ensures { option_copied result ≡ spec.first self.now }
    {
        match self.left {
            [token, ..] => Some(&token.lexeme),
            [] => None,
        }
    }

    /// Where the next token stands, or the text ends.
    #[tactic(auto, unfolding(crate::specs::Reader::next))]
    fn place(&self) -> Place
        ensures { IfSome (spec.next self.now) (λ t. result ≡ t.at) }
    {
        match self.left {
            [token, ..] => token.at,
            [] => Place {
                from: self.end,
                to: self.end,
            },
        }
    }

    /// Passes the next token, and says where it stands.
    #[tactic(auto, unfolding(crate::specs::Reader::passed))]
    pub fn pass(&mut self) -> Place
        ensures place { IfSome (spec.next self.old) (λ t. result ≡ t.at) }
        ensures after { self.new ≡ spec.passed self.old }
    {
        let at = self.place();
        if let [_, left @ ..] = self.left {
            self.left = left;
        }
        at
    }

    /// Nothing is read here: the fault is at the next token, or at the text's end.
    pub fn refuse(&self) -> Fault {
        Fault::Syntax(self.place())
    }

    #[tactic(auto, unfolding(crate::specs::Reader::sees_mark))]
    pub fn sees_mark(&self, mark: Mark) -> bool
        ensures { result ≡ spec.sees_mark mark self.now }
    {
        match self.first() {
            Some(Lexeme::Mark(next)) => mark == *next,
            _ => false,
        }
    }

    #[tactic(auto, unfolding(crate::specs::Reader::sees_keyword))]
    pub fn sees_keyword(&self, keyword: Keyword) -> bool
        ensures { result ≡ spec.sees_keyword keyword self.now }
    {
        match self.first() {
            Some(Lexeme::Keyword(next)) => keyword == *next,
            _ => false,
        }
    }

    /// Passes the next token if it is this mark, and says whether it is.
    pub fn eat_mark(&mut self, mark: Mark) -> bool
        ensures found { result ≡ spec.sees_mark mark self.old }
        ensures after { self.new ≡ spec.after (spec.sees_mark mark self.old) self.old }
    {
        let found = self.sees_mark(mark);
        if found {
            self.pass();
        }
        found
    }

    /// Passes the next token if it is this keyword, and says whether it is.
    pub fn eat_keyword(&mut self, keyword: Keyword) -> bool
        ensures found { result ≡ spec.sees_keyword keyword self.old }
        ensures after { self.new ≡ spec.after (spec.sees_keyword keyword self.old) self.old }
    {
        let found = self.sees_keyword(keyword);
        if found {
            self.pass();
        }
        found
    }

    /// The next token is this mark.
    #[tactic(auto, unfolding(crate::specs::Reader::mark_of))]
    pub fn mark(&mut self, mark: Mark) -> Result<(), Fault>
        ensures { Reads (spec.mark_of mark self.old) result self.new }
    {
        if self.sees_mark(mark) {
            self.pass();
            Ok(())
        } else {
            Err(self.refuse())
        }
    }

    /// The next token is this keyword.
    #[tactic(auto, unfolding(crate::specs::Reader::keyword_of))]
    pub fn keyword(&mut self, keyword: Keyword) -> Result<(), Fault>
        ensures { Reads (spec.keyword_of keyword self.old) result self.new }
    {
        if self.sees_keyword(keyword) {
            self.pass();
            Ok(())
        } else {
            Err(self.refuse())
        }
    }

    /// The tokens that are left, to say later which were read since.
    pub fn here(&self) -> &'a [Token]
        ensures { result.now ≡ self.now }
    {
        self.left
    }

    /// The part of the text of the tokens that were read since there were these.
    #[tactic(auto, unfolding(crate::specs::Reader::place_since))]
    pub fn since(&self, start: &[Token]) -> Place
        ensures { result ≡ spec.place_since start.now self.now }
    {
        whole(&start[..start.len().saturating_sub(self.left.len())])
    }
}

/// From the first byte of these tokens to their end.
#[tactic(auto, using(crate::proofs::Places::ends))]
fn whole(tokens: &[Token]) -> Place
    ensures { result ≡ tree.whole tokens.now }
{
    match tokens {
        [first, .., last] => Place {
            from: first.at.from,
            to: last.at.to,
        },
        [only] => only.at,
        [] => Place { from: 0, to: 0 },
    }
}
