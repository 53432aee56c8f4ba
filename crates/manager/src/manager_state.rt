//! The manager.
use tables::Core;

/// A congestion manager: the stream records of 32 slots and the counts of its ledger.
///
/// The host keeps the controllers, the schedulers and the ledger's rows, and lends to each call those
/// that it needs. Each call puts its questions first; the first that is answered 'no' refuses the
/// call, and then nothing has changed.
///
/// The three lists are parameters of their own: with one struct of references each contract would also
/// have to say that the struct still holds the same lists.
#[derive(Drop)]
pub struct Manager {
    pub(crate) core: Core,
}
