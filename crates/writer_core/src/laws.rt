//! The laws of writers.

ghost use Rattle.writer_core.specs.Laws.{AnsweredIsAcked, StampsAreCommitted, OnlyTheOfficeCommits};

/// Whatever happens at a writer, a flush, a sync or a close is answered only with bytes that are acked, under
/// the committed stamp, with the members of the pipeline; a close only once all bytes written are acked.
pub fn answered_bytes_are_acked()
    ensures { AnsweredIsAcked }
{}

/// A request, a call to complete the block and an answer name the committed stamp.
pub fn stamps_are_committed()
    ensures { StampsAreCommitted }
{}

/// Only an answer of the office changes the committed stamp: to the one that it gave to a new block, told with
/// an append, or committed.
pub fn only_the_office_commits()
    ensures { OnlyTheOfficeCommits }
{}
