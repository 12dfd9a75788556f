// The expression book itself.
use crate::table::Table;
use std::marker::PhantomData;
use symbols::Symbol;

pub(crate) mod changing;
pub(crate) mod making;
pub(crate) mod reading;

// Up to 64 rules, each a regular expression over symbols of the kind `S`. All rules share 256 positions: each symbol of an
// expression takes one, and so does each rule's end. Nothing is allocated.
#[derive(Drop)]
pub struct ExpressionBook<S: Symbol> {
    table: Table,
    symbol: PhantomData<S>,
}
