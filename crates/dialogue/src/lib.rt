//! Dialogues: what a run asks, one question after another, and how it ends.
//!
//! Two definitions stand in `specs/`. A `Talk` asks and ends: the meaning of a script is one. A `Course` may besides be
//! out of memory of its own at a place, which answers no ask: the meaning of a run over its data, and of a
//! transaction's step, is one. `and_then` goes on from the end of a course. `Comes` and `Goes` say which items of a course
//! lead to which end, or to what is left of it.
//!
//! `laws` states how courses go on. There is no other code here.
#![tactic(auto)]

mod item;
pub mod laws;

pub use item::CourseItem;
