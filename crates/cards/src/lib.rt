// Cards: the lines of an input, the fields of a line, the numbers in fields, and the cards that they make.
#![tactic(auto)]

pub mod card;
pub mod numbers;
pub mod piece;
pub mod pieces;
pub mod reading;
pub mod word;
