//! What stands behind the lock of a block's slot.

use crate::book::ReplicaBook;
use crossbeam_utils::sync::Unparker;
use hd_base::Files;

/// A block's book, until its node is stopped, and the unparker of the responder that waits.
#[derive(Drop)]
pub struct Held<F: Files> {
    pub book: Option<ReplicaBook<F>>,
    pub waker: Option<Unparker>,
}
