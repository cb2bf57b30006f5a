//! What a script sets: its parameters and its tables.

ghost use Rattle.std.specs.Prelude.{◌≡◌, ℕ, List, ◌++◌, [], ◌∷◌, length, map, Some, option_map, IfOk};
ghost use Rattle.std.specs.Str.{bytes_eq};
ghost use Rattle.std.specs.List.{list_any};
ghost use Rattle.std.specs.Option.{option_copied};
ghost use Rattle.cfg_tree.specs.Functions.{between};
ghost use Rattle.cfg_tree.specs.Settings.{unset, first_time, listen_in, string_in, natural_in, idle_names, with_parameter, has_table, with_table, table_of_string, with_module_parameter, parameters_of};
ghost use Rattle.cfg_settings.specs.Sets.{Sets};

use crate::limit::number_between;
use crate::table::table_in;
use cfg_tree::{Listen, Parameters, Setting};
use pv_values::{TableSpec, Text};
use sqlite_items::Items;
use std::alloc::{AllocError as NoMemory, Global};
use std::marker::Model;

/// What a script set so far.
#[derive(Drop)]
pub struct Settings {
    listen: Option<Listen>,
    aliases: Items<Text>,
    max_while_loops: Option<u32>,
    max_recursive_level: Option<u32>,
    fr_timer: Option<u32>,
    fr_inv_timer: Option<u32>,
    tables: Items<(Text, TableSpec)>,
}

impl Model for Settings {
    ghost use Rattle.cfg_tree.specs.Settings.{Settings as Meant};

    ghost Value = { Meant };

    ghost view = { λ s. record {
      listen = s.listen;
      aliases = s.aliases;
      max_while_loops = s.max_while_loops;
      max_recursive_level = s.max_recursive_level;
      fr_timer = s.fr_timer;
      fr_inv_timer = s.fr_inv_timer;
      tables = s.tables;
    } };
}

/// The address in a value.
fn listen_in(value: &Setting) -> Option<Listen>
    ensures { result ≡ listen_in value.now }
{
    match value {
        Setting::Listen(listen) => Some(*listen),
        Setting::Number(_) | Setting::String(_) | Setting::Name(_) => None,
    }
}

/// The string in a value.
fn string_in(value: &Setting) -> Option<&Text>
    ensures { option_copied result ≡ string_in value.now }
{
    match value {
        Setting::String(text) => Some(text),
        Setting::Number(_) | Setting::Name(_) | Setting::Listen(_) => None,
    }
}

/// The number in a value, within these bounds.
fn number_in(low: u32, high: u32, value: &Setting) -> Option<u32>
    ensures { result ≡ between low high (natural_in value.now) }
{
    match value {
        Setting::Number(number) => number_between(low, high, Some(*number)),
        Setting::String(_) | Setting::Name(_) | Setting::Listen(_) => None,
    }
}

/// The parameters without effect.
const IDLE_NAMES: [&[u8]; 9] = [
    b"debug",
    b"log_stderror",
    b"log_facility",
    b"fork",
    b"children",
    b"auto_aliases",
    b"mpath",
    b"memdbg",
    b"memlog",
];

/// Whether the name is one of these.
fn is_one_of(name: &[u8], names: &[&[u8]]) -> bool
    ensures { result ≡ list_any (λ n. bytes_eq name.now n.now) names.now }
{
    names.iter().any(|other| name == *other)
}

/// Whether a parameter has no effect.
fn is_idle(name: &[u8]) -> bool
    ensures { result ≡ list_any (bytes_eq name.now) idle_names }
{
    is_one_of(name, &IDLE_NAMES)
}

/// Sets what isn't set yet to a value, and says whether it did.
fn set<T: Copy>(field: &mut Option<T>, value: Option<T>) -> bool
    ensures { Sets (option_map Some (first_time field.old value)) field.old result field.new }
{
    match (&*field, value) {
        (None, Some(value)) => {
            *field = Some(value);
            true
        }
        _ => false,
    }
}

impl Settings {
    /// Nothing is set.
    pub fn unset(alloc: Global) -> Settings
        ensures { result ≡ unset }
    {
        Settings {
            listen: None,
            aliases: Items::new(alloc),
            max_while_loops: None,
            max_recursive_level: None,
            fr_timer: None,
            fr_inv_timer: None,
            tables: Items::new(alloc),
        }
    }

    /// Adds an alias, where the value is one, and says whether it is.
    fn set_alias(&mut self, alloc: Global, value: &Setting) -> Result<bool, NoMemory>
        ensures { let with_alias = λ (host : List ℕ). record self.old { aliases = self.old.aliases ++ host ∷ [] } in
            IfOk result (λ accepted. Sets (option_map with_alias (string_in value.now)) self.old accepted self.new) }
    {
        let Some(host) = string_in(value) else {
            return Ok(false);
        };
        self.aliases.push(host.copy(alloc)?)?;
        Ok(true)
    }

    /// Sets a parameter, where it may be set so, and says whether it may.
    #[tactic(auto, unfolding(cfg_tree::specs::Settings::with_parameter))]
    pub fn set_parameter(
        &mut self,
        alloc: Global,
        name: &[u8],
        value: &Setting,
    ) -> Result<bool, NoMemory>
        ensures { let set = with_parameter name.now value.now self.old in
            IfOk result (λ accepted. Sets set self.old accepted self.new) }
    {
        if name == b"listen".as_slice() {
            Ok(set(&mut self.listen, listen_in(value)))
        } else if name == b"alias".as_slice() {
            self.set_alias(alloc, value)
        } else if name == b"max_while_loops".as_slice() {
            Ok(set(&mut self.max_while_loops, number_in(1, 1000, value)))
        } else if name == b"max_recursive_level".as_slice() {
            Ok(set(&mut self.max_recursive_level, number_in(1, 1000, value)))
        } else {
            Ok(is_idle(name))
        }
    }

    /// Whether a table of this name is given.
    fn has_table(&self, name: &[u8]) -> bool
        ensures { result ≡ has_table name.now self.now }
    {
        self.tables
            .as_slice()
            .iter()
            .any(|table| name == table.0.bytes())
    }

    /// Adds a table, where a value gives one that isn't given yet, and says whether it does.
    fn set_table(&mut self, alloc: Global, value: &Setting) -> Result<bool, NoMemory>
        ensures { let set = with_table self.old (table_of_string (string_in value.now)) in
            IfOk result (λ accepted. Sets set self.old accepted self.new) }
    {
        let Some(text) = string_in(value) else {
            return Ok(false);
        };
        let Some(table) = table_in(alloc, text.bytes())? else {
            return Ok(false);
        };
        if self.has_table(table.0.bytes()) {
            return Ok(false);
        }
        self.tables.push(table)?;
        Ok(true)
    }

    /// Sets a parameter of a module, where it may be set so, and says whether it may.
    #[tactic(auto, unfolding(cfg_tree::specs::Settings::with_module_parameter))]
    pub fn set_module_parameter(
        &mut self,
        alloc: Global,
        module_name: &[u8],
        name: &[u8],
        value: &Setting,
    ) -> Result<bool, NoMemory>
        ensures { let set = with_module_parameter module_name.now name.now value.now self.old in
            IfOk result (λ accepted. Sets set self.old accepted self.new) }
    {
        if module_name == b"tm".as_slice() {
            if name == b"fr_timer".as_slice() {
                Ok(set(&mut self.fr_timer, number_in(1, 3_600_000, value)))
            } else if name == b"fr_inv_timer".as_slice() {
                Ok(set(&mut self.fr_inv_timer, number_in(1, 3_600_000, value)))
            } else {
                Ok(false)
            }
        } else if module_name == b"htable".as_slice() && name == b"htable".as_slice() {
            self.set_table(alloc, value)
        } else {
            Ok(false)
        }
    }

    /// How many tables are given.
    pub fn table_count(&self) -> usize
        ensures { result ≡ length self.now.tables }
    {
        self.tables.len()
    }

    /// The names of the tables.
    pub fn table_names(&self, alloc: Global) -> Result<Items<Text>, NoMemory>
        ensures { IfOk result (λ names. names ≡ map (λ t. t.0) self.now.tables) }
    {
        let mut names = Items::new(alloc);
        for table in self.tables.as_slice() {
            names.push(table.0.copy(alloc)?)?;
        }
        Ok(names)
    }

    /// What each table is.
    fn table_specs(&self, alloc: Global) -> Result<Items<TableSpec>, NoMemory>
        ensures { IfOk result (λ specs. specs ≡ map (λ t. t.1) self.now.tables) }
    {
        let mut specs = Items::new(alloc);
        for table in self.tables.as_slice() {
            specs.push(table.1)?;
        }
        Ok(specs)
    }

    /// The parameters, with what they are where nothing is given, and what each table is.
    pub fn into_parts(self, alloc: Global) -> Result<(Parameters, Items<TableSpec>), NoMemory>
        ensures parameters { IfOk result (λ parts. parts.0 ≡ parameters_of self) }
        ensures tables { IfOk result (λ parts. parts.1 ≡ map (λ t. t.1) self.tables) }
    {
        let tables = self.table_specs(alloc)?;
        let parameters = Parameters {
            listen: self.listen,
            aliases: self.aliases,
            max_while_loops: self.max_while_loops.unwrap_or(100),
            max_recursive_level: self.max_recursive_level.unwrap_or(256),
            fr_timer: self.fr_timer.unwrap_or(30_000),
            fr_inv_timer: self.fr_inv_timer.unwrap_or(120_000),
        };
        Ok((parameters, tables))
    }
}
