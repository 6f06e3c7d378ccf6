// The door: every kind of message by its number, read and written anew in published form.
#![tactic(auto)]

pub mod copy;
pub mod current;
pub mod exports;
mod fattr3;
mod figures;
pub mod judge;
// made by tools/generate: kinds
mod files;
mod items;
mod kind;
mod kinds;
mod messages;
mod mounts;
mod procedures;
// end of kinds
pub mod marks;
pub mod mounting;
pub mod replies;
pub mod rewrite;
mod sattr3;
mod settle;
pub mod values_read;
pub mod values_write;
mod walk;

pub use copy::{Copied, Marking};
pub use kinds::copy_kind;
