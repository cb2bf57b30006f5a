//! Laws of tokens, for the layers above. Each function states a law, and does nothing when it is called.

ghost use Rattle.std.specs.Prelude.{◌≡◌, ◌⊎◌, ℕ, List};
ghost use Rattle.pv_values.specs.declared.refusal.Place.{Place};
ghost use Rattle.pv_values.specs.declared.refusal.ScriptFault.TheVariants.{Refused};
ghost use Rattle.pv_values.specs.declared.refusal.ScriptFault.{ScriptFault};
ghost use Rattle.cfg_tree.specs.declared.token.Token.{Token};
ghost use Rattle.cfg_lex.specs.Tokens.{TokensOf, FaultOf};

/// A text has one list of tokens at most.
pub fn a_text_has_one_list_of_tokens()
    ensures { (text : List ℕ) (ts us : List Token) → TokensOf text ts → TokensOf text us → ts ≡ us }
{}

/// A text has one first fault at most.
pub fn a_text_has_one_first_fault()
    ensures { (text : List ℕ) (f g : ScriptFault) → FaultOf text f → FaultOf text g → f ≡ g }
{}

/// A text that has a fault has no tokens.
pub fn a_text_with_a_fault_has_no_tokens()
    ensures { (text : List ℕ) (ts : List Token) (f : ScriptFault) → TokensOf text ts → FaultOf text f → ⊥ }
{}

/// Each text has tokens, or a first fault.
pub fn each_text_has_tokens_or_a_fault()
    ensures { (text : List ℕ) → ((ts : List Token) × TokensOf text ts)
        ⊎ ((kind : ℕ) × (at : Place) × FaultOf text (Refused kind at)) }
{}
