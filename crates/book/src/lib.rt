// A book of tubular joints over any edition: six calls, and what they come to over a whole run.
#![tactic(auto)]

pub mod book;
pub mod calls;
pub mod keeping;
pub mod opening;
pub mod ran;
pub mod running;
