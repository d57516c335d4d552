// Layers over any edition, and the piles of them that three numbers name.
#![tactic(auto)]

pub mod bare;
pub mod can;
pub mod dividing;
pub mod divisor;
pub mod naming;
pub mod pile;
pub mod pile_fault;
mod portion;
mod width;
