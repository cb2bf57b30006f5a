//! What small scripts mean, and what is refused of small trees, computed from the definitions.

ghost use Rattle.std.specs.Prelude.{◌≡◌, pos, negsuc, [], ◌∷◌, codes};
ghost use Rattle.dialogue.specs.Talk.{Need};
ghost use Rattle.pv_values.specs.declared.value.Val.TheVariants.{Null, Int, Text};
ghost use Rattle.pv_values.specs.declared.run.How.TheVariants.{Normal, Exit, LoopLimit, DepthLimit};
ghost use Rattle.pv_values.specs.declared.run.HostAnswer.TheVariants.{Value};
ghost use Rattle.pv_values.specs.declared.run.HostAsk.TheVariants.{Read, Call};
ghost use Rattle.pv_values.specs.declared.variable.PvUse.TheVariants.{CallId};
ghost use Rattle.pv_values.specs.declared.function.Func.TheVariants.{Xlog};
ghost use Rattle.cfg_tree.specs.Meaning.{meaning};
ghost use Rattle.cfg_tree.specs.Small.{counts_to, route_of_0, sum_past_the_end, rest_of_seven, start, ended, calls_itself, falls_through, stops_early, logs_a_text};
ghost use Rattle.cfg_tree.specs.Grammar.{Derives};
ghost use Rattle.cfg_tree.specs.declared.raw.RawScript.{RawScript};
ghost use Rattle.cfg_tree.specs.declared.refusal_kind.RefusalKind.TheVariants.{RouteTwice, WrongBlock, UnknownVariable, BadPattern, NoRequestRoute, UnknownModule};
ghost use Rattle.cfg_tree.specs.declared.script.Script.{Script};
ghost use Rattle.cfg_tree.specs.Checks.{refusals_of, IsAccepted};
ghost use Rattle.cfg_tree.specs.Closed.{IsClosed, IsClosedWith, block_kinds};
ghost use Rattle.cfg_tree.specs.SmallTrees.{only, no_text, one_name_twice, relays_an_event, unknown_module, unknown_variable, branching_tokens, branching_items, no_pattern};

/// `$var(i) = 0; while ($var(i) < 100) { $var(i) = $var(i) + 1; }`: a loop may make a hundred rounds.
pub fn a_hundred_rounds_end_normally()
    ensures { meaning (counts_to 100) 0 start [] ≡ ended (Int (pos 100)) Normal }
{}

/// The same with 101: a hundred rounds are made, and the test that holds once more ends the run.
pub fn a_hundred_and_one_rounds_meet_the_limit()
    ensures { meaning (counts_to 101) 0 start [] ≡ ended (Int (pos 100)) LoopLimit }
{}

/// `route(Z); $var(a) = 1;` with `route[Z] { return 0; }`: the code 0 ends the run, and `$rc` is 0.
pub fn a_route_of_code_0_ends_the_run()
    ensures { meaning route_of_0 0 start [] ≡ ended (Int (pos 0)) Exit }
{}

/// `if (9223372036854775807 + 1 == $null) $var(a) = 1;`: the sum is `$null`. The host is asked for `$null`.
pub fn a_sum_past_64_bits_is_null()
    ensures { meaning sum_past_the_end 0 start (Value Null ∷ []) ≡ ended (Int (pos 1)) Normal }
{}

/// `$var(a) = -7 mod 2;`: the rest has the sign of the left one.
pub fn a_rest_has_the_left_ones_sign()
    ensures { meaning rest_of_seven 0 start [] ≡ ended (Int (negsuc 0)) Normal }
{}

/// `route[D]` that calls itself, where calls may be nested twice: the third call ends the run.
pub fn a_third_nested_call_meets_the_limit()
    ensures { meaning calls_itself 0 start [] ≡ ended (Int (pos 2)) DepthLimit }
{}

/// A `switch` goes on from the case that equals its value, through the next one, to `break`.
pub fn a_case_falls_through_to_break()
    ensures { meaning falls_through 0 start [] ≡ ended (Int (pos 7)) Normal }
{}

/// `0 && t_relay()` is false, and nothing is asked.
pub fn an_and_stops_early()
    ensures { meaning stops_early 0 start [] ≡ ended (Int (pos 0)) Normal }
{}

/// `xlog("$ci-$$")`: the host is asked for the variable, and then for the call with the text.
pub fn a_text_is_expanded_from_left_to_right()
    ensures asked { meaning logs_a_text 0 start [] ≡ Need (Read CallId) }
    ensures called { meaning logs_a_text 0 start (Value (Text (codes "a1")) ∷ []) ≡ Need (Call Xlog
        (Text (codes "a1-$") ∷ [])) }
{}

/// The empty text has no `request_route`: NoRequestRoute at its end.
pub fn no_text_is_refused()
    ensures { refusals_of no_text ≡ only NoRequestRoute 0 0 }
{}

/// `route[A]{}` twice: RouteTwice at the second name.
pub fn a_second_block_of_one_name_is_refused()
    ensures { refusals_of one_name_twice ≡ only RouteTwice 17 18 }
{}

/// `t_relay` directly in an event block: WrongBlock at its name.
pub fn a_relay_of_an_event_is_refused()
    ensures { refusals_of relays_an_event ≡ only WrongBlock 15 22 }
{}

/// `loadmodule "usrloc.so"`: UnknownModule at the string.
pub fn an_unknown_module_is_refused()
    ensures { refusals_of unknown_module ≡ only UnknownModule 11 22 }
{}

/// `$foo = $ru`: UnknownVariable at the unknown variable, and not NotWritable.
pub fn an_unknown_variable_is_refused()
    ensures { refusals_of unknown_variable ≡ only UnknownVariable 14 18 }
{}

/// `route[A]{if(!$rc)exit;else{}}`: these tokens derive this tree.
pub fn an_if_with_else_is_derived()
    ensures { Derives branching_tokens branching_items }
{}

/// `$ru =~ "("`: BadPattern at the string, which `regex`'s grammar doesn't read.
pub fn a_text_that_is_no_pattern_is_refused()
    ensures { refusals_of no_pattern ≡ only BadPattern 22 25 }
{}

/// Every number in an accepted script names something that is there, and each block that it names is of
/// the right kind.
pub fn an_accepted_script_is_closed()
    ensures closed { (raw : RawScript) (script : Script) → IsAccepted raw script → IsClosed script }
    ensures kinds { (raw : RawScript) (script : Script) → IsAccepted raw script → IsClosedWith (block_kinds raw) script }
{}
