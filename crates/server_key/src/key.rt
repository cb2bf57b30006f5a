//! Keys, shown and kept (RFC 3261, section 17.2.3).
ghost use Rattle.std.specs.Prelude.{◌≡◌, ◌↔◌, IsTrue, IfOk};
ghost use Rattle.std.specs.Str.{str_to_ascii_lowercase};

use std::alloc::{AllocError as NoMemory, Global};
use std::marker::Model;

/// A key in the bytes of a message.
#[derive(Clone, Copy, Debug)]
pub struct KeyView<'a> {
    /// The branch of the top Via.
    pub branch: &'a [u8],
    /// The host of its sent-by, in the message's own bytes.
    pub host: &'a [u8],
    /// The port of its sent-by, 5060 where it has none.
    pub port: u16,
    pub method: &'a [u8],
}

/// A key that is kept, in one piece of memory. The letters of its host are in lower case, so that two views are of one key
/// where they show the same `Key`. A clause sees its four parts.
#[derive(Debug, Drop)]
pub struct Key {
    /// The host, then the branch, then the method.
    bytes: Vec<u8>,
    host_end: usize,
    branch_end: usize,
    port: u16,
}

impl Model for Key {
    ghost use Rattle.std.specs.Prelude.{◌≤◌, drop, slice_range, take, vec_len};
    ghost use Rattle.server_key.specs.KeyParts.{KeyParts};

    ghost Value = { KeyParts };

    ghost view = { λ k. record {
      branch = slice_range k.bytes.items k.host_end k.branch_end;
      host = take k.host_end k.bytes.items;
      port = k.port;
      method = drop k.branch_end k.bytes.items;
    } };

    ghost invariant = { λ k. (k.host_end ≤ k.branch_end) × (k.branch_end ≤ vec_len k.bytes) };
}

impl KeyView<'_> {
    ghost use Rattle.server_key.specs.Keys.{IsSameKey, shown_key};

    /// Whether the two views are of one key.
    pub fn is_same(self, other: KeyView) -> bool
        ensures same { IsTrue result ↔ IsSameKey self.entry other.entry }
        ensures shown { IsTrue result ↔ (shown_key self.entry ≡ shown_key other.entry) }
    {
        self.branch == other.branch
            && self.host.eq_ignore_ascii_case(other.host)
            && self.port == other.port
            && self.method == other.method
    }
}

impl Key {
    ghost use Rattle.server_key.specs.Keys.{shown_key};

    /// A copy of the key that is shown. It takes memory once.
    pub fn copy_of(alloc: Global, view: KeyView) -> Result<Key, NoMemory>
        ensures { IfOk result (λ key. key ≡ shown_key view.entry) }
    {
        // A sum that no usize holds is more than any allocator has.
        let length = view.host.len().saturating_add(view.branch.len());
        let length = length.saturating_add(view.method.len());
        let mut bytes = Vec::with_capacity(alloc, length)?;
        bytes.extend_from_slice(view.host)?;
        bytes.as_mut_slice().make_ascii_lowercase();
        let host_end = bytes.len();
        bytes.extend_from_slice(view.branch)?;
        let branch_end = bytes.len();
        bytes.extend_from_slice(view.method)?;
        Ok(Key {
            bytes,
            host_end,
            branch_end,
            port: view.port,
        })
    }

    /// Whether the view shows this key. It takes no memory.
    pub fn is_shown_by(&self, view: KeyView) -> bool
        ensures { IsTrue result ↔ (self.now ≡ shown_key view.entry) }
    {
        self.branch() == view.branch
            && is_lowercase_of(self.host(), view.host)
            && self.port == view.port
            && self.method() == view.method
    }

    fn host(&self) -> &[u8]
        ensures { result.now ≡ self.now.host }
    {
        &self.bytes[..self.host_end]
    }

    fn branch(&self) -> &[u8]
        ensures { result.now ≡ self.now.branch }
    {
        &self.bytes[self.host_end..self.branch_end]
    }

    fn method(&self) -> &[u8]
        ensures { result.now ≡ self.now.method }
    {
        &self.bytes[self.branch_end..]
    }
}

/// Whether `lowercase` is `bytes` with the letters from A to Z in lower case.
fn is_lowercase_of(lowercase: &[u8], bytes: &[u8]) -> bool
    ensures { IsTrue result ↔ (lowercase.now ≡ str_to_ascii_lowercase bytes.now) }
{
    lowercase.len() == bytes.len()
        && lowercase
            .iter()
            .zip(bytes)
            .all(|(lower, byte)| *lower == byte.to_ascii_lowercase())
}
