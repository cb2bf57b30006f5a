//! Keys by which items are found.

ghost use Rattle.std.specs.Prelude.{◌≡◌, ◌∷◌, []};
ghost use Rattle.std.specs.Str.{bytes_eq};
ghost use Rattle.std.specs.Cmp.{partial_equiv_from_equiv};
ghost use Rattle.std.specs.Cmp.Lexicographic.{nat_list_eq_equiv, bytes_decides};
ghost use Rattle.std.proofs.Common.{ap};

use pv_values::Key;
use std::hash::{Hash, Hasher};
use std::marker::Model;

/// A key that a table holds. It wraps the key only to be compared and hashed by its bytes.
#[derive(Debug, Drop)]
pub(crate) struct Name {
    key: Key,
}

impl Model for Name {
    ghost use Rattle.std.specs.Prelude.{List, ℕ};

    ghost Value = { List ℕ };

    ghost view = { λ n. n.key };
}

impl Name {
    pub(crate) fn of(key: Key) -> Name
        ensures { result ≡ key }
    {
        Name { key }
    }

    pub(crate) fn bytes(&self) -> &[u8]
        ensures { result.now ≡ self.now }
    {
        self.key.bytes()
    }
}

impl PartialEq for Name {
    ghost eq = { bytes_eq };

    ghost laws = { partial_equiv_from_equiv nat_list_eq_equiv };

    fn eq(&self, other: &Name) -> bool {
        self.bytes() == other.bytes()
    }
}

impl Eq for Name {
    ghost laws = { nat_list_eq_equiv };
}

impl Hash for Name {
    ghost hash_input = { λ n. n ∷ [] };

    ghost respects_eq = { λ x y h. ap (λ n. n ∷ []) ((bytes_decides x y).0 h) };

    fn hash<H: Hasher>(&self, state: &mut H) {
        state.write(self.bytes());
    }
}
