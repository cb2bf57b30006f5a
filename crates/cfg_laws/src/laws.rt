//! Where each kind of refusal is among the refusals of a tree: exactly where the tree has what the kind is for.

ghost use Rattle.std.specs.Prelude.{◌≡◌, ℕ};
ghost use Rattle.cfg_tree.specs.Checks.{IsRefused};
ghost use Rattle.pv_values.specs.declared.refusal.Place.{Place};
ghost use Rattle.cfg_tree.specs.declared.raw.RawScript.{RawScript};
ghost use Rattle.cfg_tree.specs.declared.refusal_kind.RefusalKind.TheVariants.{UnknownRoute, NotWritable, UnknownVariable, RouteTwice, BadPattern, NoRequestRoute, UnknownModule};
ghost use Rattle.cfg_laws.specs.Known.{HasUnknown};
ghost use Rattle.cfg_laws.specs.Written.{AssignsUnwritten};
ghost use Rattle.cfg_laws.specs.Causes.{Exactly, IsListed, NamesNoBlock, IsSecond, IsNoPattern, LacksRequest, LoadsAnother};

/// UnknownRoute: at a route's name that a call gives, and that has no block.
pub fn an_unknown_route_has_no_block()
    ensures { (raw : RawScript) (at : Place) → Exactly (IsListed raw UnknownRoute at) (NamesNoBlock raw at) }
{}

/// RouteTwice: at the name of each block before which one of the same kind and name stands, or at its first word.
pub fn a_second_block_has_the_kind_and_name_of_an_earlier_one()
    ensures { (raw : RawScript) (at : Place) → Exactly (IsListed raw RouteTwice at) (IsSecond raw at) }
{}

/// NoRequestRoute: at the text's end, where no block is a request route.
pub fn a_script_without_a_request_route_is_refused_at_its_end()
    ensures { (raw : RawScript) (at : Place) → Exactly (IsListed raw NoRequestRoute at) (LacksRequest raw at) }
{}

/// BadPattern: at each string that is taken as a pattern, after `=~` or by a call, and is none of `regex`.
pub fn a_bad_pattern_is_no_pattern()
    ensures { (raw : RawScript) (at : Place) → Exactly (IsListed raw BadPattern at) (IsNoPattern raw at) }
{}

/// UnknownModule: at each string that loads a module of another name.
pub fn an_unknown_module_is_another()
    ensures { (raw : RawScript) (at : Place) → Exactly (IsListed raw UnknownModule at) (LoadsAnother raw at) }
{}

/// The first refusal of a tree has one kind and begins at one byte.
pub fn a_tree_is_first_refused_with_one_kind_from_one_byte()
    ensures { (raw : RawScript) (kind : ℕ) (at : Place) (other : ℕ) (there : Place)
        → IsRefused raw kind at → IsRefused raw other there → (kind ≡ other) × (at.from ≡ there.from) }
{}

/// UnknownVariable: at each variable that isn't known, or whose key has one, or a transformation, that isn't; at each
/// string that is expanded and has such a variable; and at each string that names a table that isn't there.
pub fn an_unknown_variable_is_not_known()
    ensures { (raw : RawScript) (at : Place) → Exactly (IsListed raw UnknownVariable at) (HasUnknown raw at) }
{}

/// NotWritable: at each known variable that is assigned, and that a block of this kind may not assign.
pub fn an_unwritten_variable_is_not_assigned()
    ensures { (raw : RawScript) (at : Place) → Exactly (IsListed raw NotWritable at) (AssignsUnwritten raw at) }
{}
