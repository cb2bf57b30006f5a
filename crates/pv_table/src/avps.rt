//! AVPs: values that a script keeps by name with its transaction. A name may have several; the newest one is read.
ghost use Rattle.std.specs.List.{find};
ghost use Rattle.std.specs.Option.{option_copied};
ghost use Rattle.std.specs.Prelude.{◌≡◌, ◌==◌, ◌∷◌, [], length, OnOk, OnErr, IfOk, position};
ghost use Rattle.pv_table.specs.Avps.{is_named, newest, without_newest};

use pv_values::{Text, Val};
use std::alloc::{AllocError as NoMemory, Global};
use std::collections::VecDeque;
use std::marker::Model;

/// A value under a name.
#[derive(Debug, Drop)]
pub struct Avp {
    pub name: Text,
    pub value: Val,
}

impl Avp {
    fn copy(&self, alloc: Global) -> Result<Avp, NoMemory>
        ensures { IfOk result (λ a. a ≡ self.now) }
    {
        Ok(Avp {
            name: self.name.copy(alloc)?,
            value: self.value.copy(alloc)?,
        })
    }
}

/// The AVPs of a transaction. Contracts see them as a list, the newest first.
#[derive(Drop)]
pub struct Avps {
    list: VecDeque<Avp>,
}

impl Model for Avps {
    ghost use Rattle.std.specs.Prelude.{List};
    ghost use Rattle.pv_table.specs.declared.avps.Avp.{Avp};

    ghost Value = { List Avp };

    ghost view = { λ a. a.list.items };
}

impl Avps {
    /// How many AVPs a transaction can have, whatever their names.
    pub const LIMIT: usize = 256;

    /// No AVPs.
    pub fn new(alloc: Global) -> Avps
        ensures { result ≡ [] }
    {
        Avps {
            list: VecDeque::new(alloc),
        }
    }

    /// How many there are.
    pub fn len(&self) -> usize
        ensures { result ≡ length self.now }
    {
        self.list.len()
    }

    /// Whether there are none.
    pub fn is_empty(&self) -> bool
        ensures { result ≡ (length self.now == 0) }
    {
        self.list.is_empty()
    }

    /// The newest one of this name.
    fn found(&self, name: &[u8]) -> Option<&Avp>
        ensures { option_copied result ≡ find (is_named name.now) self.now }
    {
        self.list.iter().find(|avp| avp.name.bytes() == name)
    }

    /// Its place, counted from the newest of all.
    fn place(&self, name: &[u8]) -> Option<usize>
        ensures { result ≡ position (is_named name.now) self.now }
    {
        self.list.iter().position(|avp| avp.name.bytes() == name)
    }

    /// A copy of the newest value of this name, `$null` where there is none.
    pub fn newest(&self, alloc: Global, name: &[u8]) -> Result<Val, NoMemory>
        ensures { IfOk result (λ v. v ≡ newest name.now self.now) }
    {
        match self.found(name) {
            Some(avp) => avp.value.copy(alloc),
            None => Ok(Val::Null),
        }
    }

    pub fn copy(&self, alloc: Global) -> Result<Avps, NoMemory>
        ensures { IfOk result (λ a. a ≡ self.now) }
    {
        let mut list = VecDeque::new(alloc);
        for place in 0..self.list.len() {
            list.push_back(self.list[place].copy(alloc)?)?;
        }
        Ok(Avps { list })
    }

    /// Puts a value before the others.
    pub fn push(&mut self, avp: Avp) -> Result<(), NoMemory>
        ensures ok { OnOk result (self.new ≡ avp ∷ self.old) }
        ensures err { OnErr result (self.new ≡ self.old) }
    {
        self.list.push_front(avp)?;
        Ok(())
    }

    /// Takes the newest value of this name away, where there is one.
    pub fn remove_newest(&mut self, name: &[u8])
        ensures { self.new ≡ without_newest name.now self.old }
    {
        if let Some(place) = self.place(name) {
            let _removed = self.list.remove(place);
        }
    }
}
