//! The modules of tests.

mod abc;
mod block_tests;
mod building_tests;
mod damage_tests;
mod object_tests;
mod range_tests;
mod sample_tests;
mod validation_tests;
