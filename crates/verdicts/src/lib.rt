// The check of one brace by any edition.
#![tactic(auto)]

pub mod ends;
pub mod force;
pub mod forces;
pub mod reckon;
pub mod verdict;
