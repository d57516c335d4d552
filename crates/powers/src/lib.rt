// Fractions, powers and formulas, and pairs of ends in fixed point that are proved to enclose them.
#![tactic(auto)]

pub mod ends;
pub mod ops;
pub mod quotient;
pub mod raise;
pub mod roots;
pub mod theorems;
mod up_to_one;
mod walk;
mod walked;
