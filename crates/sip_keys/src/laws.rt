//! Laws of keys and branches, for the layers above. Each function states a law, and does nothing when it is called.

ghost use Rattle.std.specs.Prelude.{◌≡◌, ◌^◌, ◌<◌, ℕ, List, true, codes, unwrap_or};
ghost use Rattle.std.specs.Str.{str_to_ascii_lowercase};
ghost use Rattle.sip_words.specs.declared.bytes.Class.TheVariants.{Token};
ghost use Rattle.sip_words.specs.Grammar.{IsWord};
ghost use Rattle.sip_msg.specs.declared.message.Message.{Message};
ghost use Rattle.server_key.specs.declared.key.KeyView.{KeyView};
ghost use Rattle.server_key.specs.Keys.{IsSameKey};
ghost use Rattle.sip_keys.specs.Keys.{ShowsKey, IsOfOneSender, method_in};
ghost use Rattle.sip_keys.specs.Branches.{branch_text, IsBranch};
ghost use Rattle.sip_keys.specs.declared.branch.Branch.{Branch};

/// An ACK or CANCEL finds the INVITE whose top Via has the same branch and sent-by, its host in any case.
pub fn an_ack_finds_its_invite()
    ensures { (b c : List ℕ) (m n : Message) (ack invite : KeyView) → ShowsKey b m (codes "INVITE") ack
        → ShowsKey c n (codes "INVITE") invite → IsOfOneSender b m c n → IsSameKey ack invite }
{}

/// Two requests have one key only where their top Vias are of one sender, and their methods are equal.
pub fn one_key_is_of_one_sender()
    ensures { (b c : List ℕ) (m n : Message) (method other : List ℕ) (v w : KeyView) → ShowsKey b m method v
        → ShowsKey c n other w → IsSameKey v w → IsOfOneSender b m c n × (method ≡ other) }
{}

/// A text names one branch of one epoch at most.
pub fn a_text_names_one_branch()
    ensures { (epoch later : ℕ) (one other : Branch) → epoch < 2 ^ 32 → later < 2 ^ 32 → IsBranch one → IsBranch other
        → branch_text epoch one ≡ branch_text later other → (epoch ≡ later) × (one ≡ other) }
{}

/// A branch's text is a token, as the grammar of Via asks.
pub fn a_branch_is_a_token()
    ensures { (epoch : ℕ) (br : Branch) → IsBranch br → IsWord Token (branch_text epoch br) }
{}
