// An edit before it is made.
use crate::Transaction;
use ve_store::NewValues;

/// A transaction that is to be performed. Its items cite the values of a store and, after them,
/// these.
#[derive(Drop)]
pub struct Draft {
    pub tx: Transaction,
    pub values: NewValues,
}
