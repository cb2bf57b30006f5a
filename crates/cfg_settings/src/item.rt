//! The items of a script, one after another: what they set, and what is refused.

ghost use Rattle.std.specs.Prelude.{◌≡◌, ◌++◌, [], ◌∷◌, OnOk, IfOk, if◌then◌else◌};
ghost use Rattle.cfg_tree.specs.Settings.{item_step, settings_of, setting_refusals};
ghost use Rattle.cfg_tree.specs.Refusals.{refusal};

use crate::module::is_module;
use crate::refusal::Refusal;
use crate::setting::Settings;
use cfg_tree::{RawItem, RefusalKind, Setting, Word};
use pv_values::Place;
use sqlite_items::Items;
use std::alloc::{AllocError as NoMemory, Global};

/// How many tables there are at most.
const MAX_TABLES: usize = 32;

/// Adds a refusal where a test fails.
fn refuse_unless(
    passed: bool,
    kind: RefusalKind,
    at: Place,
    refusals: &mut Items<Refusal>,
) -> Result<(), NoMemory>
    ensures { let refused = refusal kind at ∷ [] in
        OnOk result (refusals.new ≡ refusals.old ++ (if passed then [] else refused)) }
{
    if !passed {
        refusals.push(Refusal::new(kind, at))?;
    }
    Ok(())
}

/// `NAME = VALUE`
fn take_parameter(
    alloc: Global,
    name: &Word,
    value: &Setting,
    settings: &mut Settings,
    refusals: &mut Items<Refusal>,
) -> Result<(), NoMemory>
    ensures set { let i = RawItem.Parameter name.now value.now in OnOk result (settings.new ≡ (item_step i settings.old).0) }
    ensures refused { let i = RawItem.Parameter name.now value.now in
        OnOk result (refusals.new ≡ refusals.old ++ (item_step i settings.old).1) }
{
    let accepted = settings.set_parameter(alloc, name.text.bytes(), value)?;
    refuse_unless(accepted, RefusalKind::BadParameter, name.at, refusals)
}

/// `modparam(MODULE, NAME, VALUE)`: the 33rd table is refused.
fn take_module_parameter(
    alloc: Global,
    module_name: &Word,
    name: &Word,
    value: &Setting,
    settings: &mut Settings,
    refusals: &mut Items<Refusal>,
) -> Result<(), NoMemory>
    ensures set { let i = RawItem.ModuleParameter module_name.now name.now value.now in
        OnOk result (settings.new ≡ (item_step i settings.old).0) }
    ensures refused { let i = RawItem.ModuleParameter module_name.now name.now value.now in
        OnOk result (refusals.new ≡ refusals.old ++ (item_step i settings.old).1) }
{
    let old_count = settings.table_count();
    let accepted = settings.set_module_parameter(
        alloc,
        module_name.text.bytes(),
        name.text.bytes(),
        value,
    )?;
    refuse_unless(accepted, RefusalKind::BadParameter, name.at, refusals)?;
    let count = settings.table_count();
    let fits = count <= old_count || count <= MAX_TABLES;
    refuse_unless(fits, RefusalKind::TooLarge, name.at, refusals)
}

/// One item.
fn take_item(
    alloc: Global,
    item: &RawItem,
    settings: &mut Settings,
    refusals: &mut Items<Refusal>,
) -> Result<(), NoMemory>
    ensures set { OnOk result (settings.new ≡ (item_step item.now settings.old).0) }
    ensures refused { OnOk result (refusals.new ≡ refusals.old ++ (item_step item.now settings.old).1) }
{
    match item {
        RawItem::Parameter(name, value) => take_parameter(alloc, name, value, settings, refusals),
        RawItem::Module(name) => refuse_unless(
            is_module(name.text.bytes()),
            RefusalKind::UnknownModule,
            name.at,
            refusals,
        ),
        RawItem::ModuleParameter(module_name, name, value) => {
            take_module_parameter(alloc, module_name, name, value, settings, refusals)
        }
        RawItem::Block(_) => Ok(()),
    }
}

/// What the items of a script set; what they refuse is put after the refusals so far.
pub fn settings_in(
    alloc: Global,
    items: &[RawItem],
    refusals: &mut Items<Refusal>,
) -> Result<Settings, NoMemory>
    ensures settings { IfOk result (λ s. s ≡ settings_of items.now) }
    ensures refused { OnOk result (refusals.new ≡ refusals.old ++ setting_refusals items.now) }
{
    let mut settings = Settings::unset(alloc);
    for item in items {
        take_item(alloc, item, &mut settings, refusals)?;
    }
    Ok(settings)
}
