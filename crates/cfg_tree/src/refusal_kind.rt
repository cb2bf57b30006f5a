//! The kinds of refusal of a script, each with the number by which it is printed.

ghost use Rattle.std.specs.Prelude.{◌≡◌};
ghost use Rattle.cfg_tree.specs.RefusalKinds.{refusal_number};

/// Why a script, or a part of it, is refused.
#[derive(Clone, Copy, Debug, PartialEq, Eq)]
pub enum RefusalKind {
    /// A byte with which no token begins.
    BadByte,
    /// A string, a comment or a variable that the text ends in.
    Unclosed,
    /// The grammar derives no tree from the tokens.
    Syntax,
    /// A route that has no block.
    UnknownRoute,
    /// A second block of one kind and name.
    RouteTwice,
    /// A function that the language doesn't have.
    UnknownFunction,
    /// A function directly in a block of a kind in which it doesn't work.
    WrongBlock,
    /// A count or a form of arguments that the function doesn't take.
    WrongArguments,
    /// A variable, a transformation or a table that isn't known.
    UnknownVariable,
    /// An assignment to a variable that the block may not write.
    NotWritable,
    /// A parameter that the language doesn't have, or with a value that it doesn't take.
    BadParameter,
    /// A text that is no pattern.
    BadPattern,
    /// A text that is too long, or one block, statement, pattern or table too many.
    TooLarge,
    /// There is no `request_route`.
    NoRequestRoute,
    /// A module that isn't known.
    UnknownModule,
}

impl RefusalKind {
    /// The number by which the kind is printed, 1 to 15.
    pub fn number(self) -> u8
        ensures { result ≡ refusal_number self }
    {
        match self {
            RefusalKind::BadByte => 1,
            RefusalKind::Unclosed => 2,
            RefusalKind::Syntax => 3,
            RefusalKind::UnknownRoute => 4,
            RefusalKind::RouteTwice => 5,
            RefusalKind::UnknownFunction => 6,
            RefusalKind::WrongBlock => 7,
            RefusalKind::WrongArguments => 8,
            RefusalKind::UnknownVariable => 9,
            RefusalKind::NotWritable => 10,
            RefusalKind::BadParameter => 11,
            RefusalKind::BadPattern => 12,
            RefusalKind::TooLarge => 13,
            RefusalKind::NoRequestRoute => 14,
            RefusalKind::UnknownModule => 15,
        }
    }
}
