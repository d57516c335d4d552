// A session: no book until a pile is accepted, and then one kept by it.
use book::book::Book;
use layers::pile::Pile;
use std::alloc::Global;

#[derive(Drop)]
pub struct Session {
    pub(crate) heap: Global,
    pub(crate) book: Option<Book<Pile>>,
}
