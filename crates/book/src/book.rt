// A book: the edition it is kept by, and its records.
use editions::edition::Edition;
use ledger::tables::Tables;

#[derive(Drop)]
pub struct Book<E: Edition> {
    pub(crate) edition: E,
    pub(crate) tables: Tables,
}
