//! Laws of replicas and their files.

ghost use Rattle.replica_model.specs.Laws.{RowsKeepBytes, PlansFindFiles, PlansFollowRows};

/// Every event leaves a replica with just the bytes that it has written.
pub fn rows_keep_bytes()
    ensures { RowsKeepBytes }
{}

/// The calls of an event find the replica's files where they lie, and make of them those of the replica
/// after the event.
pub fn plans_follow_rows()
    ensures found { PlansFindFiles }
    ensures followed { PlansFollowRows }
{}
