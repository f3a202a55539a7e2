//! Byte groups by index modulo 4: splitting, regrouping, and histograms of set bits.
#![tactic(auto)]

mod lanes;
pub mod laws;
mod predictor;
mod regroup;
mod split;

pub use predictor::BG4Predictor;
pub use regroup::{
    bg4_regroup, bg4_regroup_separate, bg4_regroup_together, bg4_regroup_together_combined_write_4,
    bg4_regroup_together_combined_write_8, groups_fit,
};
pub use split::{bg4_split, bg4_split_separate, bg4_split_together};
