//! What a script sets for the whole proxy: its parameters, its modules and its tables, and what of them is refused.
//!
//! [`settings_in`] reads the items of a script's tree, one after another; what each of them sets, and when it is refused,
//! is said by `Settings` of `cfg_tree`. [`Refusal`] is a refusal with its kind and place, of these and of all other
//! checks of a script.
//!
//! ```
//! let mut refusals = Items::from_vec(Vec::new(alloc));
//! let settings = settings_in(alloc, raw.items.as_slice(), &mut refusals)?;
//! settings.table_count(); // how many tables the script has
//! let (parameters, tables) = settings.into_parts(alloc)?;
//! for refusal in refusals.as_slice() {
//!     refusal.fault(); // its kind and its place
//! }
//! ```
#![tactic(auto)]

mod bytes;
mod item;
mod limit;
mod module;
mod name;
mod refusal;
mod setting;
mod table;

pub use item::settings_in;
pub use name::table_and_key;
pub use refusal::Refusal;
pub use setting::Settings;
