// Editions of the rules for the strength of tubular joints.
#![tactic(auto)]

pub mod api;
mod api_factors;
mod chord;
pub mod code;
mod coefficients;
pub mod edition;
mod factors;
mod figures;
pub mod iso;
mod iso_factors;
pub mod names;
pub mod rows;
pub mod strength;
mod told;
