//! The book of what a restart found of a block.

ghost use Rattle.std.specs.Prelude.{◌≡◌, IfOk, IfErr};
ghost use Rattle.hd_base.specs.FileMaps.{OnlyOf};
ghost use Rattle.replica_model.specs.Found.{settled_state};
ghost use Rattle.node_restarts.specs.Making.{seen_in, HoldsSeen, IsBookFor, ComesBack};

use crate::faults::{RestartFault, of_found};
use hd_base::{BlockId, Files, ReplicaState};
use replica_files::ReplicaBook;
use restart_scan::Seen;
use std::alloc::Global;

/// What was found of a block, if anything was.
pub(crate) fn seen_of(replicas: &[Seen], block: BlockId) -> Option<Seen>
    ensures { result ≡ seen_in replicas.now block }
{
    replicas
        .iter()
        .copied()
        .find(|seen| seen.block.0 == block.0)
}

/// FINALIZED stays FINALIZED, and all else is RWR.
fn settled(state: ReplicaState) -> ReplicaState
    ensures { result ≡ settled_state state }
{
    match state {
        ReplicaState::Finalized => ReplicaState::Finalized,
        _ => ReplicaState::Rwr,
    }
}

/// The book of an absent replica.
fn absent_book<F: Files>(
    alloc: Global,
    block: BlockId,
    drawer: F,
) -> Result<ReplicaBook<F>, (RestartFault, F)>
    requires { OnlyOf block.0 (F.files drawer) }
    ensures made { IfOk result (λ book. IsBookFor F.Files block None (F.files drawer) book) }
    ensures given_back { IfErr result (λ e. ComesBack F.Files drawer e.1 e.0) }
{
    match ReplicaBook::new(alloc, block, drawer) {
        Ok(book) => Ok(book),
        Err((_, drawer)) => Err((RestartFault::Memory, drawer)),
    }
}

/// The book of a replica that was found.
fn found_book<F: Files>(
    alloc: Global,
    block: BlockId,
    seen: Seen,
    drawer: F,
) -> Result<ReplicaBook<F>, (RestartFault, F)>
    requires { HoldsSeen (F.files drawer) block (Some seen) }
    ensures made { IfOk result (λ book. IsBookFor F.Files block (Some seen) (F.files drawer) book) }
    ensures given_back { IfErr result (λ e. ComesBack F.Files drawer e.1 e.0) }
{
    let state = settled(seen.state);
    match ReplicaBook::found(alloc, block, state, seen.stamp, seen.sums, drawer) {
        Ok(book) => Ok(book),
        Err((fault, drawer)) => Err((of_found(fault), drawer)),
    }
}

/// The book of what was found of a block, over its files. A failure gives the drawer back, whose files are as they
/// were.
pub(crate) fn make_book<F: Files>(
    alloc: Global,
    block: BlockId,
    seen: Option<Seen>,
    drawer: F,
) -> Result<ReplicaBook<F>, (RestartFault, F)>
    requires only { OnlyOf block.0 (F.files drawer) }
    requires held { HoldsSeen (F.files drawer) block seen }
    ensures made { IfOk result (λ book. IsBookFor F.Files block seen (F.files drawer) book) }
    ensures given_back { IfErr result (λ e. ComesBack F.Files drawer e.1 e.0) }
{
    match seen {
        Some(seen) => found_book(alloc, block, seen, drawer),
        None => absent_book(alloc, block, drawer),
    }
}
