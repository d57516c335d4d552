// Decks: what a book makes of the cards of an input, and the whole text that answers it.
#![tactic(auto)]

pub mod fault;
pub mod output;
pub mod performing;
pub mod respond;
pub mod session;
