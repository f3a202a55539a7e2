//! The modules of tests.

mod asked_tests;
mod part_tests;
mod query_tests;
mod section_tests;
