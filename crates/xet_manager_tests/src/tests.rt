//! The modules of tests.

mod adding_tests;
mod cache_tests;
mod capped_tests;
mod consolidating_tests;
mod cutting_tests;
mod exports;
mod face_tests;
mod failing_tests;
mod filling_tests;
mod import_tests;
mod index_tests;
mod keyed_tests;
mod listing_tests;
mod opening_tests;
mod pruning_tests;
mod reconstructing_tests;
mod records;
mod registering_tests;
mod reserving_tests;
mod rounds;
mod samples;
