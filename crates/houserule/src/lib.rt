// An edition as anyone outside might write one: an owner's rule of thumb, with one strength for every kind.
#![tactic(auto)]

pub mod owner;
pub mod rule;
