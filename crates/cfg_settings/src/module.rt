//! The modules that a script may load.

ghost use Rattle.std.specs.Prelude.{◌≡◌, ◌++◌, ◌||◌, codes};
ghost use Rattle.std.specs.List.{list_any};
ghost use Rattle.std.specs.Str.{bytes_eq};
ghost use Rattle.cfg_tree.specs.Settings.{without_path, is_module};

/// The modules that are known.
const MODULE_NAMES: [&[u8]; 11] = [
    b"tm",
    b"tmx",
    b"pv",
    b"htable",
    b"corex",
    b"sl",
    b"textops",
    b"siputils",
    b"maxfwd",
    b"rr",
    b"xlog",
];

/// A name without its path: what is after the last `/`.
#[tactic(auto, using(crate::proofs::Paths::slash_seen, crate::proofs::Paths::other_seen, crate::proofs::Paths::all_seen))]
fn without_path(text: &[u8]) -> &[u8]
    ensures { result.now ≡ without_path text.now }
{
    let mut from = 0;
    for at in 0..text.len() {
        if text[at] == b'/' {
            from = at + 1;
        }
    }
    &text[from..]
}

/// Whether the text is the name, with or without `.so`.
#[tactic(auto, using(crate::proofs::Endings::file_some, crate::proofs::Endings::file_none))]
fn is_file_of(text: &[u8], name: &[u8]) -> bool
    ensures { result ≡ (bytes_eq text.now name.now || bytes_eq text.now (name.now ++ codes ".so")) }
{
    match text.strip_prefix(name) {
        Some(ending) => ending.is_empty() || ending == b".so".as_slice(),
        None => false,
    }
}

/// Whether the text is one of the names, with or without `.so`.
fn is_file_of_one(text: &[u8], names: &[&[u8]]) -> bool
    ensures { result ≡ list_any (λ n. bytes_eq text.now n.now || bytes_eq text.now (n.now ++ codes ".so")) names.now }
{
    names.iter().any(|name| is_file_of(text, name))
}

/// Whether a module is known, named with or without a path and `.so`.
pub fn is_module(text: &[u8]) -> bool
    ensures { result ≡ is_module text.now }
{
    is_file_of_one(without_path(text), &MODULE_NAMES)
}
