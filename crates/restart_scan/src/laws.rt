//! Laws of scans.

ghost use Rattle.restart_scan.specs.Laws.{WholeReplicasAreFound, TwoFilesAreFound};
ghost use Rattle.restart_scan.specs.Laws.{StoppedCreatesAreFound, StoppedPacketsAreFound};
ghost use Rattle.restart_scan.specs.Laws.{StoppedSettlingsAreFound, StoppedTransfersAreFound};
ghost use Rattle.restart_scan.specs.Further.{FurtherScansFindTheSame, FurtherShelfScansFindTheSame};
ghost use Rattle.restart_scan.specs.Restarts.{RestartRule, FailedCallsAreFound, TemporaryReplicasAreFree};

use hd_base::Files;

/// Of the files that hold a replica which isn't broken, just that is found which the model of replicas says of it.
pub fn whole_replicas_are_found()
    ensures { WholeReplicasAreFound }
{}

/// Of a data file and a metadata file with a good header, wherever they lie and whatever is stored, a front of the
/// bytes is found as RWR; or all as FINALIZED, where both files lie in finalized and the sums are just theirs.
pub fn two_files_are_found()
    ensures { TwoFilesAreFound }
{}

/// After a stop at any of the calls that make a new replica, nothing is found, or it without bytes as RWR.
pub fn stopped_creates_are_found()
    ensures { StoppedCreatesAreFound }
{}

/// After a stop at any of the calls of a packet, a front of the bytes with those that it brings behind is found as RWR.
pub fn stopped_packets_are_found()
    ensures { StoppedPacketsAreFound }
{}

/// After a stop at any of the calls by which what is held of a replica becomes another, neither of them TEMPORARY, what
/// is found is what the model of replicas allows.
pub fn stopped_settlings_are_found()
    ensures { StoppedSettlingsAreFound }
{}

/// After a stop at any of the calls by which a TEMPORARY replica becomes another, nothing is found, or it with all its
/// bytes as RWR.
pub fn stopped_transfers_are_found()
    ensures { StoppedTransfersAreFound }
{}

/// After a scan that stopped at any of its calls, a further scan finds the replicas that the first would have found,
/// and leaves the same files. It names as moved just the blocks whose files weren't moved yet.
pub fn further_scans_find_the_same()
    ensures block { FurtherScansFindTheSame }
    ensures shelf { FurtherShelfScansFindTheSame }
{}

/// After a stop at any file call of any event of a book, or a failure of it, with any part of that call done, a scan
/// finds what the model of replicas allows. Where an absent replica is made, its block is to have no files before; where
/// it stays absent, no pair, as none has that a scan found so.
pub fn restart_rule<F: Files>()
    ensures stopped { RestartRule F.Files }
    ensures failed { FailedCallsAreFound F.Files }
{}

/// No TEMPORARY replica to which a history leads is under a recovery.
pub fn temporary_replicas_are_free()
    ensures { TemporaryReplicasAreFree }
{}
