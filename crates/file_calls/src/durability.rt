//! What a loss of power leaves.

ghost use Rattle.file_calls.specs.Durable.{SyncedStays};

/// What was written and synced stays through writes past it, cuts behind it and renames, at every
/// loss of power.
pub fn synced_stays()
    ensures { SyncedStays }
{}
