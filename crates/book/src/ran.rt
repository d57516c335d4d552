// What a run of calls gives.
use crate::book::Book;
use crate::calls::Answer;
use editions::edition::Edition;
use ledger::refusal::Refusal;

#[derive(Drop)]
pub struct Run<E: Edition> {
    pub book: Book<E>,
    pub answers: Vec<Result<Answer, Refusal>>,
}
