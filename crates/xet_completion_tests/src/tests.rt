//! The modules of tests.

mod completing_tests;
mod samples;
