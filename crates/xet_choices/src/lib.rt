//! Why each chunk of a file was stored, or where it was found: definitions over whole lists, and theorems about them.
#![tactic(auto)]

mod choice;
pub mod laws;

pub use choice::Choice;
