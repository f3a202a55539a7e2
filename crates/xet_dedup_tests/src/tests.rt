//! The modules of tests.

mod aggregate_tests;
mod chunker_tests;
mod deduper_tests;
mod ending_tests;
mod filing;
mod metrics_tests;
mod partition_tests;
mod run_tests;
mod samples;
mod shown;
