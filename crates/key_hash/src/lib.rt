//! What the keys of tables and of the index are hashed by.
//!
//! Keys come from strangers. The library's default hasher has a fixed seed, so whoever knows it can make keys that all have
//! one hash. [`HashState::Random`] has keys of its own, which the program draws once when it starts. Simulations and tests
//! take [`HashState::Fixed`], so that they come out the same each time.
#![tactic(auto)]

mod state;

pub use state::{HashState, KeyHasher};
