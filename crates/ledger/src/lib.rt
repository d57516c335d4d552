// The records of a book: which joints and braces stand, with which forces and checks. What a check answers is brought by the
// caller.
#![tactic(auto)]

pub mod calls;
pub mod changes;
pub mod entries;
pub mod refusal;
pub mod tables;
