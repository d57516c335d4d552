// Records of chords and braces within their limits, the kinds of strength, and the refusals of figures.
#![tactic(auto)]

pub mod kind;
pub mod limits;
pub mod ratios;
pub mod record;
pub mod refusals;
pub mod signs;
