//! Laws of replicas whose files were synced.

ghost use Rattle.durable_replicas.specs.Books.{LogsFollowEvents};
ghost use Rattle.durable_replicas.specs.Hsyncs.{PacketsEndSynced};
ghost use Rattle.durable_replicas.specs.Losses.{LossesKeepChunks, LossesKeepFronts};
ghost use Rattle.durable_replicas.specs.Scans.{ScansKeepChunks, ScansKeepFronts};
ghost use Rattle.durable_replicas.specs.Survival.{HsyncsKeepFronts, HsyncsSurvive};

use hd_base::Files;

/// A packet with sync that a book took leaves a log of calls that ends with the syncs of the replica's data file and of
/// its metadata file, which then held it.
pub fn packets_end_synced<F: Files>()
    ensures { PacketsEndSynced F.Files }
{}

/// The events that a book takes add just their calls to the log of its files, if its replica is there.
pub fn logs_follow_events<F: Files>()
    ensures { LogsFollowEvents F.Files }
{}

/// Of a replica that isn't TEMPORARY, whose files were synced when it had some bytes, a scan after any loss of power
/// finds at least the whole chunks among the first n, while all events since have left it with n bytes or more.
pub fn losses_keep_chunks()
    ensures { LossesKeepChunks }
{}

/// The same of the scan of a whole shelf: it lists the block's replica with at least these chunks, and the files that it
/// leaves hold it.
pub fn scans_keep_chunks()
    ensures { ScansKeepChunks }
{}

/// Where no torn chunk matches its sum by chance, all that is found of such a replica is a front of what was written,
/// if its chunks have sums.
pub fn losses_keep_fronts()
    ensures { LossesKeepFronts }
{}

/// The same of the scan of a whole shelf.
pub fn scans_keep_fronts()
    ensures { ScansKeepFronts }
{}

/// A book takes a packet with sync, and then whatever else, while at least n bytes are left; the power is lost at some
/// later call on its files. The scan of a restart lists the replica with at least the whole chunks among the first n
/// bytes that the packet's sync made durable.
pub fn hsyncs_survive<F: Files>()
    ensures { HsyncsSurvive F.Files }
{}

/// It lists a front of what was written, where no torn chunk matches its sum by chance.
pub fn hsyncs_keep_fronts<F: Files>()
    ensures { HsyncsKeepFronts F.Files }
{}
