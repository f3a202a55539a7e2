//! The program as one call, `run_program`, over any input, output, disk and inputs: it stores files in a folder, lists
//! them and reads them back.
#![tactic(auto)]

mod clean;
mod ending;
mod group;
mod lines;
mod list;
mod make;
mod opening;
mod pack;
mod read;
mod report;
mod run;
mod session;
mod words;

pub use run::run_program;
