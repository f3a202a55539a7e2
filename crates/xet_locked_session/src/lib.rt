//! A store that several passes share under a lock. It has one history, and each pass knows the prefix of it that it has seen.
//! A pass makes steps, each in one hold of the lock.
#![tactic(auto)]

mod naming;
mod passing;
mod session;

pub use naming::Naming;
pub use passing::Passing;
pub use session::{LockedSession, Opened, Pass, StoppingSession};
