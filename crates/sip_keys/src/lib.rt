//! The server key of a request, and the branches of this proxy's own Via values.
#![tactic(auto)]

mod branch;
mod key;
mod laws;

pub use branch::{Branch, branch_of, branch_text};
pub use key::{invite_key, key_of};
pub use laws::{
    a_branch_is_a_token, a_text_names_one_branch, an_ack_finds_its_invite, one_key_is_of_one_sender,
};
pub use server_key::KeyView;

#[cfg(test)]
mod tests;
