//! Flat code that stands for a script: its instructions (`Instr`), and a script as such code
//! (`Loaded`).
//!
//! What the instructions do is `specs/Machine.antt`, which of them stand for a tree `specs/Code.antt`,
//! and when code stands for a script `specs/Follows.antt`.
#![tactic(auto)]

mod code;
mod instr;
pub mod laws;
mod machine;

pub use code::{Code, Loaded};
pub use instr::Instr;
pub use machine::{Event, Frame, Wait};
