//! The tables that a script gives.

ghost use Rattle.std.specs.Prelude.{◌≡◌, Some, None, IfOk};
ghost use Rattle.cfg_tree.specs.Names.{table_and_key};
ghost use Rattle.cfg_tree.specs.Settings.{one_alone, with_part, with_parts, at_semicolons, without_empty_end, spec_of, table_in};
ghost use Rattle.cfg_settings.specs.Parts.{part_number};

use crate::bytes::{before, cut_at, stands_at};
use crate::limit::{first_time, number_between};
use crate::name::{is_name, table_and_key};
use pv_values::{TableSpec, Text, text_number};
use std::alloc::{AllocError as NoMemory, Global};
use std::marker::Model;

/// What the parts of one table gave so far.
#[derive(Drop)]
struct TableParts {
    size: Option<u32>,
    autoexpire: Option<u32>,
    initval: Option<i64>,
    update: Option<u32>,
}

impl Model for TableParts {
    ghost use Rattle.cfg_tree.specs.Settings.{TableParts as Meant};

    ghost Value = { Meant };

    ghost view = { λ t. record {
      size = t.size;
      autoexpire = t.autoexpire;
      initval = t.initval;
      update = t.update;
    } };
}

/// The number after a part's first `=`.
fn number_of(part: &[u8]) -> Option<i64>
    ensures { result ≡ part_number part.now }
{
    let name = before(part, b'=');
    if stands_at(part, name, b'=') {
        text_number(&part[name + 1..])
    } else {
        None
    }
}

/// The number of the text `1`, which is written in no other way.
fn one_alone(text: &[u8]) -> Option<u32>
    ensures { result ≡ one_alone text.now }
{
    if text == b"1".as_slice() {
        Some(1)
    } else {
        None
    }
}

impl TableParts {
    fn none() -> TableParts
        ensures { result ≡ record { size = None; autoexpire = None; initval = None; update = None } }
    {
        TableParts {
            size: None,
            autoexpire: None,
            initval: None,
            update: None,
        }
    }

    /// With a part `NAME=NUMBER` or `updateexpire=1`, each at most once.
    fn with_part(self, part: &[u8]) -> Option<TableParts>
        ensures { result ≡ with_part part.now (Some self) }
    {
        let (name, value) = cut_at(part, b'=');
        let number = number_of(part);
        if name == b"size".as_slice() {
            let size = first_time(self.size, number_between(2, 14, number))?;
            Some(TableParts {
                size: Some(size),
                ..self
            })
        } else if name == b"autoexpire".as_slice() {
            let seconds = first_time(self.autoexpire, number_between(0, 10_000_000, number))?;
            Some(TableParts {
                autoexpire: Some(seconds),
                ..self
            })
        } else if name == b"initval".as_slice() {
            let initval = first_time(self.initval, number)?;
            Some(TableParts {
                initval: Some(initval),
                ..self
            })
        } else if name == b"updateexpire".as_slice() {
            let update = first_time(self.update, one_alone(value))?;
            Some(TableParts {
                update: Some(update),
                ..self
            })
        } else {
            None
        }
    }

    /// With the parts of a text, between semicolons; one may stand after the last part.
    fn with_parts(self, text: &[u8]) -> Option<TableParts>
        ensures { result ≡ with_parts (without_empty_end (at_semicolons text.now)) (Some self) }
    {
        let mut parts = self;
        let mut rest = text;
        while !rest.is_empty() {
            let (part, behind) = cut_at(rest, b';');
            parts = parts.with_part(part)?;
            rest = behind;
        }
        Some(parts)
    }

    /// The table, with what it is where nothing is given.
    fn spec(self) -> TableSpec
        ensures { result ≡ spec_of self }
    {
        TableSpec {
            size: self.size.unwrap_or(8),
            autoexpire: u64::from(self.autoexpire.unwrap_or(0)),
            initval: self.initval,
            update: true,
        }
    }
}

/// A table with its name, of a text `NAME=>` and its parts. `None` where the text has another form.
#[tactic(auto, unfolding(cfg_tree::specs::Settings::table_in))]
pub fn table_in(alloc: Global, text: &[u8]) -> Result<Option<(Text, TableSpec)>, NoMemory>
    ensures { IfOk result (λ t. t ≡ table_in text.now (table_and_key text.now)) }
{
    let Some((name, parts)) = table_and_key(text) else {
        return Ok(None);
    };
    if !is_name(name) {
        return Ok(None);
    }
    let Some(parts) = TableParts::none().with_parts(parts) else {
        return Ok(None);
    };
    Ok(Some((Text::from_slice(alloc, name)?, parts.spec())))
}
