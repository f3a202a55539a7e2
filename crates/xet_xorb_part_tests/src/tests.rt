//! The modules of tests.

mod chunk_tests;
mod footer_tests;
mod last_footer_tests;
mod stream_tests;
