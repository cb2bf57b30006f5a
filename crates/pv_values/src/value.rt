//! Values: their truth, their number and their text.

ghost use Rattle.std.specs.Prelude.{◌≡◌, ◌++◌, ◌∷◌, [], IfOk, OnOk, OnErr, slice_index_or, slice_set, length, ◌<◌};
ghost use Rattle.pv_values.specs.Values.{is_true, number_of, text_of};

use crate::number::text_number;
use crate::text::Text;
use itoa::Buffer;
use std::alloc::{AllocError as NoMemory, Global};
use std::marker::Model;

/// A value of a script.
#[derive(Debug, Drop)]
pub enum Val {
    /// `$null`: nothing.
    Null,
    Int(i64),
    Text(Text),
}

impl Val {
    pub fn copy(&self, alloc: Global) -> Result<Val, NoMemory>
        ensures { IfOk result (λ v. v ≡ self.now) }
    {
        match self {
            Val::Null => Ok(Val::Null),
            Val::Int(n) => Ok(Val::Int(*n)),
            Val::Text(text) => Ok(Val::Text(text.copy(alloc)?)),
        }
    }
}

/// A value is true unless it is `$null`, 0 or the empty text.
pub fn truth(v: &Val) -> bool
    ensures { result ≡ is_true v.now }
{
    match v {
        Val::Null => false,
        Val::Int(n) => *n != 0,
        Val::Text(text) => !text.bytes().is_empty(),
    }
}

/// The number of a value. `None` exactly where it is `$null`, or a text that is no optional `-` and
/// digits within 64 bits.
pub fn as_int(v: &Val) -> Option<i64>
    ensures { result ≡ number_of v.now }
{
    match v {
        Val::Null => None,
        Val::Int(n) => Some(*n),
        Val::Text(text) => text_number(text.bytes()),
    }
}

/// The text of a value: a number's is decimal, that of `$null` is `<null>`.
pub fn as_text(alloc: Global, v: &Val) -> Result<Text, NoMemory>
    ensures { IfOk result (λ t. t ≡ text_of v.now) }
{
    match v {
        Val::Null => Text::from_slice(alloc, b"<null>"),
        Val::Int(n) => Text::from_slice(alloc, Buffer::new().format(*n).as_bytes()),
        Val::Text(text) => text.copy(alloc),
    }
}

/// The same of a value that is no longer needed: a text is taken over.
pub fn into_text(alloc: Global, v: Val) -> Result<Text, NoMemory>
    ensures { IfOk result (λ t. t ≡ text_of v) }
{
    match v {
        Val::Text(text) => Ok(text),
        other => as_text(alloc, &other),
    }
}

/// A list of values.
#[derive(Debug, Drop)]
pub struct Vals {
    list: Vec<Val>,
}

impl Model for Vals {
    ghost use Rattle.std.specs.Prelude.{List};
    ghost use Rattle.pv_values.specs.declared.value.Val.{Val};

    ghost Value = { List Val };

    ghost view = { λ v. v.list.items };
}

impl Vals {
    pub fn of(list: Vec<Val>) -> Vals
        ensures { result ≡ list.items }
    {
        Vals { list }
    }

    pub fn new(alloc: Global) -> Vals
        ensures { result ≡ [] }
    {
        Vals {
            list: Vec::new(alloc),
        }
    }

    pub fn as_slice(&self) -> &[Val]
        ensures { result.now ≡ self.now }
    {
        self.list.as_slice()
    }

    pub fn push(&mut self, value: Val) -> Result<(), NoMemory>
        ensures ok { OnOk result (self.new ≡ self.old ++ value ∷ []) }
        ensures err { OnErr result (self.new ≡ self.old) }
    {
        self.list.push(value)?;
        Ok(())
    }

    /// Drops all values, and keeps the room.
    pub fn clear(&mut self)
        ensures { self.new ≡ [] }
    {
        self.list.clear();
    }

    /// Puts a value in the place of another.
    pub fn set(&mut self, at: usize, value: Val)
        requires { at < length self.old }
        ensures { self.new ≡ slice_set self.old at value }
    {
        self.list[at] = value;
    }

    /// A copy of the value at this place, or `$null` where there is none.
    pub fn copy_at(&self, alloc: Global, at: usize) -> Result<Val, NoMemory>
        ensures { IfOk result (λ v. v ≡ slice_index_or self.now at Val.Null) }
    {
        let values = self.as_slice();
        if at < values.len() {
            values[at].copy(alloc)
        } else {
            Ok(Val::Null)
        }
    }

    pub fn copy(&self, alloc: Global) -> Result<Vals, NoMemory>
        ensures { IfOk result (λ v. v ≡ self.now) }
    {
        Vals::copy_of(alloc, self.as_slice())
    }

    /// A list of copies of these values.
    pub fn copy_of(alloc: Global, list: &[Val]) -> Result<Vals, NoMemory>
        ensures { IfOk result (λ v. v ≡ list.now) }
    {
        let mut values = Vals::new(alloc);
        for value in list {
            values.push(value.copy(alloc)?)?;
        }
        Ok(values)
    }
}
