//! Cases of the world, each computed from its events: what the replicas, the answers and the messages are at its
//! end. The events are those of a play, in its order.
#![tactic(auto)]

ghost use Rattle.world_cases.specs.FirstWrite.{FirstWriteEnds};
ghost use Rattle.world_cases.specs.FlushMidChunk.{FlushMidChunkEnds};
ghost use Rattle.world_cases.specs.CutStream.{CutStreamEnds};
ghost use Rattle.world_cases.specs.FileFault.{FileFaultEnds};
ghost use Rattle.world_cases.specs.BlockRecovery.{BlockRecoveryEnds};
ghost use Rattle.world_cases.specs.Restart.{RestartEnds};
ghost use Rattle.world_cases.specs.Hsync.{HsyncEnds};
ghost use Rattle.world_cases.specs.SumsSixteen.{SumsSixteenEnds};
ghost use Rattle.world_cases.specs.SumsNull.{SumsNullEnds};
ghost use Rattle.world_cases.specs.Appended.{AppendedEnds};
ghost use Rattle.world_cases.specs.VisibleRead.{VisibleReadEnds};

/// A first write at one node.
pub fn first_write()
    ensures { FirstWriteEnds }
{}

/// Three members, with an hflush amid a chunk.
pub fn flush_mid_chunk()
    ensures { FlushMidChunkEnds }
{}

/// A stream of which a connection is cut.
pub fn cut_stream()
    ensures { CutStreamEnds }
{}

/// A packet whose call on files fails.
pub fn file_fault()
    ensures { FileFaultEnds }
{}

/// A block recovery while the writer has the block open.
pub fn block_recovery()
    ensures { BlockRecoveryEnds }
{}

/// A member that stops and starts again, and a block recovery.
pub fn restart()
    ensures { RestartEnds }
{}

/// An hsync, and one with no byte past the sent end.
pub fn hsync()
    ensures { HsyncEnds }
{}

/// A block whose chunks have 16 bytes.
pub fn sums_sixteen()
    ensures { SumsSixteenEnds }
{}

/// A block without sums.
pub fn sums_null()
    ensures { SumsNullEnds }
{}

/// An append that begins amid a chunk.
pub fn appended()
    ensures { AppendedEnds }
{}

/// Reads beside a stream.
pub fn visible_read()
    ensures { VisibleReadEnds }
{}
