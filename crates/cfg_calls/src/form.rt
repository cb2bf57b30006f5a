//! Calls of functions: each form of arguments.

ghost use Rattle.std.specs.Prelude.{◌≡◌, ℕ, List, ◌∷◌, [], IfOk, option_map, option_copied};
ghost use Rattle.std.specs.List.{list_any};
ghost use Rattle.std.specs.Str.{str_eq_ignore_ascii_case};
ghost use Rattle.pv_values.specs.declared.function.Func.{Func as Called};
ghost use Rattle.pv_values.specs.declared.function.Func.TheVariants as func;
ghost use Rattle.cfg_tree.specs.declared.raw.RouteKind.TheVariants.{Begins};
ghost use Rattle.cfg_tree.specs.Names.{Known as WhatIsKnown};
ghost use Rattle.cfg_tree.specs.Functions as functions;
ghost use Rattle.cfg_tree.specs.Functions.{needed_fields};
ghost use Rattle.cfg_tree.specs.Refusals.{join, both};
ghost use Rattle.cfg_calls.specs.Following.{Follows};
ghost use Rattle.cfg_calls.specs.Calls.{only_literal, Makes, MakesText};

use crate::argument::{literal, number_argument};
use crate::checker::Checker;
use crate::joins;
use crate::known::Known;
use cfg_settings::table_and_key;
use cfg_tree::{Part, RawArg, RefusalKind, RouteKind, Word};
use pv_values::{BlockKind, Func, FuncName, Place, Text};
use sqlite_items::Items;
use std::alloc::{AllocError as NoMemory, Global};

/// A function with its literal arguments, and the parts of each expanded one.
pub type Call = (Func, Items<Items<Part>>);

/// A call without an expanded argument.
fn bare_call(alloc: Global, func: Option<Func>) -> Option<Call>
    ensures { result ≡ option_map (λ f. (f, [])) func }
{
    match func {
        Some(func) => Some((func, Items::new(alloc))),
        None => None,
    }
}

/// A call with one expanded argument.
fn call_with(
    alloc: Global,
    func: Func,
    argument: Option<Items<Part>>,
) -> Result<Option<Call>, NoMemory>
    ensures { IfOk result (λ r. r ≡ option_map (λ p. (func, p ∷ [])) argument) }
{
    match argument {
        Some(argument) => Ok(Some((func, joins::one(alloc, argument)?))),
        None => Ok(None),
    }
}

/// A call with these expanded arguments.
fn call_of(func: Func, arguments: Option<Items<Items<Part>>>) -> Option<Call>
    ensures { result ≡ option_map (λ ps. (func, ps)) arguments }
{
    Some((func, arguments?))
}

/// The lists of two expanded arguments.
fn two(
    alloc: Global,
    first: Option<Items<Part>>,
    second: Option<Items<Part>>,
) -> Result<Option<Items<Items<Part>>>, NoMemory>
    ensures { IfOk result (λ r. r ≡ join (λ p q. p ∷ q ∷ []) first second) }
{
    match (first, second) {
        (Some(first), Some(second)) => {
            let mut both = joins::one(alloc, first)?;
            both.push(second)?;
            Ok(Some(both))
        }
        _ => Ok(None),
    }
}

/// The call that continues a suspended request in a block.
fn continuation(arguments: Option<Items<Items<Part>>>, block: Option<u32>) -> Option<Call>
    ensures { result ≡ join (λ ps b. (func.TContinue b, ps)) arguments block }
{
    Some((Func::TContinue(block?), arguments?))
}

/// The function that removes items of a table by their names.
fn removal(table: Option<u32>, pattern: Option<u32>) -> Option<Func>
    ensures { result ≡ join func.ShtRmNameRe table pattern }
{
    Some(Func::ShtRmNameRe(table?, pattern?))
}

/// The one argument, where there is one and it is a literal.
fn only_literal(args: &[RawArg]) -> Option<&Word>
    ensures { option_copied result ≡ only_literal args.now }
{
    match args {
        [arg] => literal(arg),
        _ => None,
    }
}

/// The fields that a message needs, by their names in either form.
const NEEDED: [&[u8]; 14] = [
    b"via",
    b"v",
    b"from",
    b"f",
    b"to",
    b"t",
    b"call-id",
    b"i",
    b"cseq",
    b"max-forwards",
    b"content-length",
    b"l",
    b"route",
    b"record-route",
];

/// The name is one of these, in letters of either case.
fn is_one_of(name: &[u8], names: &[&[u8]]) -> bool
    ensures { result ≡ list_any (λ n. str_eq_ignore_ascii_case name.now n.now) names.now }
{
    names.iter().any(|other| name.eq_ignore_ascii_case(other))
}

/// A field that a message needs, by its name in either form.
fn is_needed(name: &[u8]) -> bool
    ensures { result ≡ list_any (str_eq_ignore_ascii_case name.now) needed_fields }
{
    is_one_of(name, &NEEDED)
}

/// The function may stand in a block of this kind.
fn may_stand(function: FuncName, kind: RouteKind) -> bool
    ensures { result ≡ functions.may_stand function kind }
{
    match kind {
        RouteKind::Route => true,
        RouteKind::Begins(kind) => function.stands_in(kind),
    }
}

impl Checker {
    /// `()`
    fn plain(
        &mut self,
        known: &Known,
        func: Func,
        at: Place,
        args: &[RawArg],
    ) -> Result<Option<Call>, NoMemory>
        ensures { IfOk result (λ v. Follows (functions.plain func known.now at args.now) self.old v self.new) }
    {
        if !args.is_empty() {
            return self.refuse(RefusalKind::WrongArguments, at);
        }
        Ok(Some((func, Items::new(self.alloc()))))
    }

    /// `(x)`
    fn expanding(
        &mut self,
        known: &Known,
        func: Func,
        at: Place,
        args: &[RawArg],
    ) -> Result<Option<Call>, NoMemory>
        ensures { IfOk result (λ v. Follows (functions.expanding func known.now at args.now) self.old v self.new) }
    {
        let [x] = args else {
            return self.refuse(RefusalKind::WrongArguments, at);
        };
        let x = self.expanded(known, x)?;
        call_with(self.alloc(), func, x)
    }

    /// `([x])`
    fn expanding_maybe(
        &mut self,
        known: &Known,
        func: Func,
        at: Place,
        args: &[RawArg],
    ) -> Result<Option<Call>, NoMemory>
        ensures { IfOk result (λ v. Follows (functions.expanding_maybe func known.now at args.now) self.old v self.new) }
    {
        if args.is_empty() {
            return Ok(bare_call(self.alloc(), Some(func)));
        }
        self.expanding(known, func, at, args)
    }

    /// The parts of two arguments that are expanded.
    fn expanded_two(
        &mut self,
        known: &Known,
        first: &RawArg,
        second: &RawArg,
    ) -> Result<Option<Items<Items<Part>>>, NoMemory>
        ensures { IfOk result (λ v. Follows (both (λ p q. p ∷ q ∷ []) (functions.expanded_arg known.now first.now) (functions.expanded_arg known.now second.now)) self.old v self.new) }
    {
        let first = self.expanded(known, first)?;
        let second = self.expanded(known, second)?;
        two(self.alloc(), first, second)
    }

    /// `(x, x)`
    #[tactic(auto, using(crate::proofs::Follows::follows_mapped))]
    fn expanding_two(
        &mut self,
        known: &Known,
        func: Func,
        at: Place,
        args: &[RawArg],
    ) -> Result<Option<Call>, NoMemory>
        ensures { IfOk result (λ v. Follows (functions.expanding_two func known.now at args.now) self.old v self.new) }
    {
        let [x, y] = args else {
            return self.refuse(RefusalKind::WrongArguments, at);
        };
        let arguments = self.expanded_two(known, x, y)?;
        Ok(call_of(func, arguments))
    }

    /// `(code, x)`: 100 to 699
    fn replying<F: FnOnce(u16) -> Func>(
        &mut self,
        known: &Known,
        make: F,
        at: Place,
        args: &[RawArg],
    ) -> Result<Option<Call>, NoMemory>
        requires { F.IsAlwaysCallable make }
        ensures { (made : ℕ → Called) → Makes 65536 (F.post make) made → IfOk result (λ v. Follows (functions.replying made known.now at args.now) self.old v self.new) }
    {
        let [code, x] = args else {
            return self.refuse(RefusalKind::WrongArguments, at);
        };
        let Some(code) = number_argument(code, 100, 699) else {
            return self.refuse(RefusalKind::WrongArguments, at);
        };
        let x = self.expanded(known, x)?;
        call_with(self.alloc(), make(code), x)
    }

    /// `(n)`: 1 to 255
    fn counting(
        &mut self,
        known: &Known,
        at: Place,
        args: &[RawArg],
    ) -> Result<Option<Call>, NoMemory>
        ensures { IfOk result (λ v. Follows (functions.counting func.MfProcessMaxfwdHeader known.now at args.now) self.old v self.new) }
    {
        let [n] = args else {
            return self.refuse(RefusalKind::WrongArguments, at);
        };
        match number_argument(n, 1, 255) {
            Some(n) => {
                let func = Func::MfProcessMaxfwdHeader(n as u8);
                Ok(bare_call(self.alloc(), Some(func)))
            }
            None => self.refuse(RefusalKind::WrongArguments, at),
        }
    }

    /// `("literal")`: a method, or the name of a field
    fn testing<F: FnOnce(Text) -> Func>(
        &mut self,
        make: F,
        at: Place,
        args: &[RawArg],
    ) -> Result<Option<Call>, NoMemory>
        requires { F.IsAlwaysCallable make }
        ensures { (known : WhatIsKnown) (made : List ℕ → Called) → MakesText (F.post make) made → IfOk result (λ v. Follows (functions.taking_text made known at args.now) self.old v self.new) }
    {
        let Some(word) = only_literal(args) else {
            return self.refuse(RefusalKind::WrongArguments, at);
        };
        let func = make(word.text.copy(self.alloc())?);
        Ok(bare_call(self.alloc(), Some(func)))
    }

    /// `("name")`, but of a field that a message needs
    fn removing(&mut self, at: Place, args: &[RawArg]) -> Result<Option<Call>, NoMemory>
        ensures { (known : _) → IfOk result (λ v. Follows (functions.taking_removable func.RemoveHf known at args.now) self.old v self.new) }
    {
        let Some(word) = only_literal(args) else {
            return self.refuse(RefusalKind::WrongArguments, at);
        };
        if is_needed(word.text.bytes()) {
            return self.refuse(RefusalKind::WrongArguments, at);
        }
        let func = Func::RemoveHf(word.text.copy(self.alloc())?);
        Ok(bare_call(self.alloc(), Some(func)))
    }

    /// `("block")`
    fn arming<F: FnOnce(u32) -> Func>(
        &mut self,
        known: &Known,
        kind: BlockKind,
        make: F,
        at: Place,
        args: &[RawArg],
    ) -> Result<Option<Call>, NoMemory>
        requires { F.IsAlwaysCallable make }
        ensures { (made : ℕ → Called) → Makes 4294967296 (F.post make) made → IfOk result (λ v. Follows (functions.taking_block (Begins kind) made known.now at args.now) self.old v self.new) }
    {
        let Some(word) = only_literal(args) else {
            return self.refuse(RefusalKind::WrongArguments, at);
        };
        let block = self.block_number(known, RouteKind::Begins(kind), word)?;
        let func = block.map(make);
        Ok(bare_call(self.alloc(), func))
    }

    /// `("re")`
    fn matching(&mut self, at: Place, args: &[RawArg]) -> Result<Option<Call>, NoMemory>
        ensures { (known : _) → IfOk result (λ v. Follows (functions.taking_pattern func.TCheckStatus known at args.now) self.old v self.new) }
    {
        let Some(word) = only_literal(args) else {
            return self.refuse(RefusalKind::WrongArguments, at);
        };
        let pattern = self.pattern_number(word.at, word.text.bytes())?;
        let func = pattern.map(Func::TCheckStatus);
        Ok(bare_call(self.alloc(), func))
    }

    /// `("table")`
    fn resetting(
        &mut self,
        known: &Known,
        at: Place,
        args: &[RawArg],
    ) -> Result<Option<Call>, NoMemory>
        ensures { IfOk result (λ v. Follows (functions.taking_table func.ShtReset known.now at args.now) self.old v self.new) }
    {
        let Some(word) = only_literal(args) else {
            return self.refuse(RefusalKind::WrongArguments, at);
        };
        let table = self.table_number(known, word.at, word.text.bytes())?;
        let func = table.map(Func::ShtReset);
        Ok(bare_call(self.alloc(), func))
    }

    /// `("table=>re")`
    fn removing_items(
        &mut self,
        known: &Known,
        at: Place,
        args: &[RawArg],
    ) -> Result<Option<Call>, NoMemory>
        ensures { IfOk result (λ v. Follows (functions.taking_table_pattern func.ShtRmNameRe known.now at args.now) self.old v self.new) }
    {
        let Some(word) = only_literal(args) else {
            return self.refuse(RefusalKind::WrongArguments, at);
        };
        let Some((table, pattern)) = table_and_key(word.text.bytes()) else {
            return self.refuse(RefusalKind::WrongArguments, at);
        };
        let table = self.table_number(known, word.at, table)?;
        let pattern = self.pattern_number(word.at, pattern)?;
        Ok(bare_call(self.alloc(), removal(table, pattern)))
    }

    /// `(x, x, "route")`
    #[tactic(auto, using(crate::proofs::Follows::follows_both))]
    fn continuing(
        &mut self,
        known: &Known,
        at: Place,
        args: &[RawArg],
    ) -> Result<Option<Call>, NoMemory>
        ensures { IfOk result (λ v. Follows (functions.continuing func.TContinue known.now at args.now) self.old v self.new) }
    {
        let [index, label, route] = args else {
            return self.refuse(RefusalKind::WrongArguments, at);
        };
        let Some(route) = literal(route) else {
            return self.refuse(RefusalKind::WrongArguments, at);
        };
        let arguments = self.expanded_two(known, index, label)?;
        let block = self.block_number(known, RouteKind::Route, route)?;
        Ok(continuation(arguments, block))
    }

    /// `([level,] x)`: the level is a string, which isn't looked at
    fn logging(
        &mut self,
        known: &Known,
        at: Place,
        args: &[RawArg],
    ) -> Result<Option<Call>, NoMemory>
        ensures { IfOk result (λ v. Follows (functions.logging func.Xlog known.now at args.now) self.old v self.new) }
    {
        match args {
            [RawArg::String(_), _, ..] => self.expanding(known, Func::Xlog, at, &args[1..]),
            [_, _, ..] => self.refuse(RefusalKind::WrongArguments, at),
            _ => self.expanding(known, Func::Xlog, at, args),
        }
    }

    /// A function with its arguments, by its form.
    fn with_arguments(
        &mut self,
        known: &Known,
        function: FuncName,
        at: Place,
        args: &[RawArg],
    ) -> Result<Option<Call>, NoMemory>
        ensures { IfOk result (λ v. Follows (functions.form function known.now at args.now) self.old v self.new) }
    {
        match function {
            FuncName::SlSendReply => self.replying(known, Func::SlSendReply, at, args),
            FuncName::TNewtran => self.plain(known, Func::TNewtran, at, args),
            FuncName::TReply => self.replying(known, Func::TReply, at, args),
            FuncName::TRelay => self.plain(known, Func::TRelay, at, args),
            FuncName::AppendBranch => self.expanding_maybe(known, Func::AppendBranch, at, args),
            FuncName::TOnBranch => self.arming(known, BlockKind::Branch, Func::TOnBranch, at, args),
            FuncName::TOnFailure => self.arming(
                known,
                BlockKind::Failure,
                Func::TOnFailure,
                at,
                args,
            ),
            FuncName::TOnReply => self.arming(known, BlockKind::Reply, Func::TOnReply, at, args),
            FuncName::TSetFr => self.expanding_two(known, Func::TSetFr, at, args),
            FuncName::TCheckTrans => self.plain(known, Func::TCheckTrans, at, args),
            FuncName::TIsCanceled => self.plain(known, Func::TIsCanceled, at, args),
            FuncName::TCheckStatus => self.matching(at, args),
            FuncName::TSuspend => self.plain(known, Func::TSuspend, at, args),
            FuncName::TContinue => self.continuing(known, at, args),
            FuncName::IsMethod => self.testing(Func::IsMethod, at, args),
            FuncName::HasTotag => self.plain(known, Func::HasTotag, at, args),
            FuncName::IsPresentHf => self.testing(Func::IsPresentHf, at, args),
            FuncName::RemoveHf => self.removing(at, args),
            FuncName::AppendHf => self.expanding(known, Func::AppendHf, at, args),
            FuncName::MfProcessMaxfwdHeader => self.counting(known, at, args),
            FuncName::RecordRoute => self.plain(known, Func::RecordRoute, at, args),
            FuncName::LooseRoute => self.plain(known, Func::LooseRoute, at, args),
            FuncName::Xlog => self.logging(known, at, args),
            FuncName::ShtRmNameRe => self.removing_items(known, at, args),
            FuncName::ShtReset => self.resetting(known, at, args),
        }
    }

    /// A call of a function, in a block of this kind.
    pub fn function_call(
        &mut self,
        known: &Known,
        kind: RouteKind,
        word: &Word,
        args: &[RawArg],
    ) -> Result<Option<Call>, NoMemory>
        ensures { IfOk result (λ v. Follows (functions.function_call known.now kind word.now args.now) self.old v self.new) }
    {
        let Some(function) = FuncName::named(word.text.bytes()) else {
            return self.refuse(RefusalKind::UnknownFunction, word.at);
        };
        if may_stand(function, kind) {
            return self.with_arguments(known, function, word.at, args);
        }
        self.note(RefusalKind::WrongBlock, word.at)?;
        self.with_arguments(known, function, word.at, args)?;
        Ok(None)
    }
}
