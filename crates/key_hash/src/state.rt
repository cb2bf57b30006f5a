//! The state of a hasher before it reads a key, and the hasher.

ghost use Rattle.key_hash.specs.Hashers as hashers;

use std::hash::{BuildHasher, DefaultHasher, FoldHasher, Hasher, RandomState};

/// What keys are hashed by.
#[derive(Clone, Copy, Debug)]
pub enum HashState {
    /// The library's default hasher, whose seed is fixed.
    Fixed,
    /// The library's hasher with random keys.
    Random(RandomState),
}

/// A hasher that reads a key.
#[derive(Clone, Copy)]
pub enum KeyHasher {
    Fixed(FoldHasher),
    Random(DefaultHasher),
}

impl BuildHasher for HashState {
    type Hasher = KeyHasher;

    ghost build_hasher = { hashers.build_hasher };

    fn build_hasher(&self) -> KeyHasher {
        match self {
            HashState::Fixed => KeyHasher::Fixed(FoldHasher::default()),
            HashState::Random(keys) => KeyHasher::Random(keys.build_hasher()),
        }
    }
}

impl Hasher for KeyHasher {
    ghost write = { hashers.write };

    ghost finish = { hashers.finish };

    fn finish(&self) -> u64 {
        match self {
            KeyHasher::Fixed(hasher) => hasher.finish(),
            KeyHasher::Random(hasher) => hasher.finish(),
        }
    }

    fn write(&mut self, bytes: &[u8]) {
        match self {
            KeyHasher::Fixed(hasher) => hasher.write(bytes),
            KeyHasher::Random(hasher) => hasher.write(bytes),
        }
    }
}
