//! The modules of tests.

mod damage_tests;
mod reading_tests;
mod samples;
