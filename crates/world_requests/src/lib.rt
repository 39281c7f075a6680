//! Each request to write that is on its way is of a block whose writer has acted, and its targets are nodes; each request
//! to read is of a block for which a reader has asked, and each request of a recovery of one for which a primary has begun.
//! Each function has an empty body; its clause says what holds after every list of events.
#![tactic(auto)]

ghost use Rattle.world_requests.specs.Requests.{AreOfWriters, AreOfReaders, AreOfPrimaries, AreAmong};

/// The block of each request to write that was sent on a connection is that of a writer that took an own step, and the
/// port of each of its targets is a node's. That of each request to read is one for which a reader asked in its own step,
/// and that of each request of a recovery one that a primary was to recover in its first step.
pub fn requests_are_asked()
    ensures writes { AreOfWriters }
    ensures reads { AreOfReaders }
    ensures recoveries { AreOfPrimaries }
{}

/// A list with the block of each writer that takes an own step, of each for which a reader asks, and of each that a primary
/// is to recover, has the block of each request.
pub fn requests_are_among()
    ensures { AreAmong }
{}
