//! Variables as they are written.

ghost use Rattle.std.specs.Prelude.{◌≡◌, ◌≤◌, ◌<◌, ◌+◌, ◌-◌, length, IfSome, IfOk, option_map};
ghost use Rattle.cfg_tree.specs.Variables.{before_close};
ghost use Rattle.cfg_lex.specs.Variables.{opened_behind, closes, named_form, form_with_transformation, form_at, is_open_name, is_open_transformation, is_open_bracket, is_cut_off, further, bytes_of, variable_of, StretchLiesIn, FormIsWithin};

use crate::bytes::{RunClass, begins_at, name_len, run_len};
use cfg_tree::Variable;
use pv_values::Text;
use std::alloc::{AllocError, Global};

/// Where a part of a variable stands after its `$`, and how long it is.
#[derive(Clone, Copy, Debug, PartialEq, Eq)]
pub struct Stretch {
    pub from: usize,
    pub len: usize,
}

/// Where the parts of a variable stand, and how many bytes it takes after its `$`.
#[derive(Clone, Copy, Debug, PartialEq, Eq)]
pub struct VariableForm {
    pub name: Stretch,
    pub inner: Option<Stretch>,
    pub transformation: Option<Stretch>,
    pub len: usize,
}

impl Stretch {
    /// The part one byte further on.
    fn further(self) -> Stretch
        requires { self.from < 18446744073709551615 }
        ensures { result ≡ further self }
    {
        Stretch {
            from: self.from + 1,
            len: self.len,
        }
    }

    /// The bytes of this part.
    fn text(self, alloc: Global, text: &[u8]) -> Result<Text, AllocError>
        requires { StretchLiesIn (length text.now) self }
        ensures { IfOk result (λ t. t ≡ bytes_of text.now self) }
    {
        Text::from_slice(alloc, &text[self.from..self.from + self.len])
    }
}

/// The part one byte further on, if there is one.
fn further(part: Option<Stretch>) -> Option<Stretch>
    requires { IfSome part (λ p. p.from < 18446744073709551615) }
    ensures { result ≡ option_map further part }
{
    match part {
        None => None,
        Some(part) => Some(part.further()),
    }
}

/// How many more brackets are open after this byte.
fn opened_behind(byte: u8, opened: usize) -> usize
    requires { opened < 18446744073709551615 }
    ensures { result ≡ opened_behind byte opened }
{
    match byte {
        b'(' => opened + 1,
        b')' => opened.saturating_sub(1),
        _ => opened,
    }
}

/// A `)`, where no bracket inside is open.
fn closes(byte: u8, opened: usize) -> bool
    ensures { result ≡ closes byte opened }
{
    opened == 0 && byte == b')'
}

/// How many bytes stand before the `)` that closes the bracket. Brackets inside are counted.
#[tactic(auto, using(crate::proofs::Closings::close_here, crate::proofs::Closings::close_later, crate::proofs::Closings::close_never))]
fn before_close(text: &[u8]) -> Option<usize>
    ensures value { result ≡ before_close 0 text.now }
    ensures within { IfSome result (λ n. n < length text.now) }
{
    let mut opened: usize = 0;
    for at in 0..text.len() {
        if closes(text[at], opened) {
            return Some(at);
        }
        opened = opened_behind(text[at], opened);
    }
    None
}

/// NAME or NAME(INNER) at the beginning of a text.
#[tactic(auto, unfolding(crate::specs::Variables::named_form))]
fn named_form(text: &[u8]) -> Option<VariableForm>
    ensures value { result ≡ named_form text.now }
    ensures within { IfSome result (FormIsWithin (length text.now)) }
{
    let n = name_len(text);
    if n == 0 {
        return None;
    }
    let name = Stretch { from: 0, len: n };
    if !begins_at(text, n, b'(') {
        return Some(VariableForm {
            name,
            inner: None,
            transformation: None,
            len: n,
        });
    }
    let k = before_close(&text[n + 1..])?;
    Some(VariableForm {
        name,
        inner: Some(Stretch {
            from: n + 1,
            len: k,
        }),
        transformation: None,
        len: n + k + 2,
    })
}

/// The variable in brackets whose name and inner text have this form, with `{TRANSFORMATION})` after them.
#[tactic(auto, unfolding(crate::specs::Variables::form_with_transformation))]
fn form_with_transformation(text: &[u8], form: VariableForm) -> Option<VariableForm>
    requires within { FormIsWithin (length text.now - 1) form }
    requires bracket { 0 < length text.now }
    ensures value { result ≡ form_with_transformation text.now form }
    ensures within { IfSome result (FormIsWithin (length text.now)) }
{
    if !begins_at(text, form.len + 1, b'{') {
        return None;
    }
    let k = run_len(&text[form.len + 2..], RunClass::Other(b'}'));
    if !begins_at(text, form.len + 2 + k, b'}') || !begins_at(text, form.len + 3 + k, b')') {
        return None;
    }
    Some(VariableForm {
        name: form.name.further(),
        inner: further(form.inner),
        transformation: Some(Stretch {
            from: form.len + 2,
            len: k,
        }),
        len: form.len + k + 4,
    })
}

/// The variable after a `$`: NAME, NAME(INNER), (NAME{TRANSFORMATION}) or (NAME(INNER){TRANSFORMATION}).
#[tactic(auto, unfolding(crate::specs::Variables::form_at))]
pub fn form_at(text: &[u8]) -> Option<VariableForm>
    ensures value { result ≡ form_at text.now }
    ensures within { IfSome result (FormIsWithin (length text.now)) }
{
    if !begins_at(text, 0, b'(') {
        return named_form(text);
    }
    let form = named_form(&text[1..])?;
    form_with_transformation(text, form)
}

/// Whether NAME( stands here, and its bracket isn't closed.
#[tactic(auto, unfolding(crate::specs::Variables::is_open_name))]
fn is_open_name(text: &[u8]) -> bool
    ensures { result ≡ is_open_name text.now }
{
    let n = name_len(text);
    n > 0 && begins_at(text, n, b'(') && before_close(&text[n + 1..]).is_none()
}

/// Whether the text ends before `{TRANSFORMATION})` does.
#[tactic(auto, unfolding(crate::specs::Variables::is_open_transformation))]
fn is_open_transformation(text: &[u8]) -> bool
    ensures { result ≡ is_open_transformation text.now }
{
    match text {
        [] => true,
        [first, rest @ ..] => {
            *first == b'{' && rest.len() <= run_len(rest, RunClass::Other(b'}')) + 1
        }
    }
}

/// Whether after `$(` the text ends inside the brackets.
#[tactic(auto, unfolding(crate::specs::Variables::is_open_bracket))]
fn is_open_bracket(text: &[u8]) -> bool
    ensures { result ≡ is_open_bracket text.now }
{
    if text.is_empty() {
        return true;
    }
    match named_form(text) {
        None => is_open_name(text),
        Some(form) => is_open_transformation(&text[form.len..]),
    }
}

/// Whether the text after a `$` ends inside a variable's brackets.
#[tactic(auto, unfolding(crate::specs::Variables::is_cut_off))]
pub fn is_cut_off(text: &[u8]) -> bool
    ensures { result ≡ is_cut_off text.now }
{
    if begins_at(text, 0, b'(') {
        is_open_bracket(&text[1..])
    } else {
        is_open_name(text)
    }
}

/// The bytes of a part, if there is one.
fn part_of(alloc: Global, text: &[u8], part: Option<Stretch>) -> Result<Option<Text>, AllocError>
    requires { IfSome part (StretchLiesIn (length text.now)) }
    ensures { IfOk result (λ t. t ≡ option_map (bytes_of text.now) part) }
{
    match part {
        None => Ok(None),
        Some(part) => Ok(Some(part.text(alloc, text)?)),
    }
}

/// The variable of this form, whose text after the `$` is this.
pub fn variable_of(alloc: Global, text: &[u8], form: VariableForm) -> Result<Variable, AllocError>
    requires { FormIsWithin (length text.now) form }
    ensures { IfOk result (λ v. v ≡ variable_of text.now form) }
{
    let name = form.name.text(alloc, text)?;
    let inner = part_of(alloc, text, form.inner)?;
    let transformation = part_of(alloc, text, form.transformation)?;
    Ok(Variable {
        name,
        inner,
        transformation,
    })
}
