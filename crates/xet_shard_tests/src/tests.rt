//! The modules of tests.

mod abc_tests;
mod empty_tests;
mod export_tests;
mod held_tests;
