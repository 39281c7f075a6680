//! Laws of replicas. Each function has an empty body; its clauses say what holds of every replica
//! that events make, and of every event.

ghost use Rattle.std.specs.Prelude.{ℕ, ◌≡◌, ◌≢◌, ◌≤◌, ◌<◌, ◌↔◌, true, false, List, length, Some, None};
ghost use Rattle.hd_base.specs.declared.states.ReplicaState.{ReplicaState};
ghost use Rattle.hd_base.specs.declared.numbers.BlockId.{BlockId};
ghost use Rattle.hd_base.specs.declared.numbers.ConnId.{ConnId};
ghost use Rattle.hd_base.specs.declared.numbers.Stamp.{Stamp};
ghost use Rattle.hd_base.specs.SumRules.{Rule};
ghost use Rattle.replica_core.specs.declared.records.ReplicaRecord.{ReplicaRecord};
ghost use Rattle.replica_core.specs.declared.events.Event.{Event};
ghost use Rattle.replica_core.specs.declared.events.Event.TheVariants as event;
ghost use Rattle.replica_core.specs.Info.{settled_at};
ghost use Rattle.replica_core.specs.Laws.{AckedIsWritten, LeavesNoGap, stream_conn, IsWritersPacket, RefusesReads};
ghost use Rattle.replica_core.specs.Transitions.{absent, found, run, state_after};
ghost use Rattle.replica_core.specs.Sound.{Sound};
ghost use Rattle.replica_core.specs.Views.{written_in, writer_in, visible_in};

/// Whatever happens to a replica, no more of it is acked than is written.
pub fn acked_is_written()
    ensures made { (block : BlockId) (events : List Event) → AckedIsWritten (run (absent block) events) }
    ensures found { (block : BlockId) (state : ReplicaState) (stamp : Stamp)
        (sums : Rule) (bytes : ℕ) (events : List Event) →
        AckedIsWritten (run (found block (settled_at state stamp sums bytes)) events) }
    ensures sound { (c : ReplicaRecord) (events : List Event) → Sound c → Sound (run c events) }
{}

/// A packet that is taken never leaves a gap.
pub fn packets_leave_no_gap()
    ensures { (c : ReplicaRecord) (e : Event) → LeavesNoGap c e }
{}

/// What comes on the stream of another connection than the writing one changes nothing, and only
/// the writing connection's packets add bytes or pending packets.
pub fn one_connection_writes()
    ensures others { (c : ReplicaRecord) (e : Event) (conn : ConnId) →
        stream_conn e ≡ Some conn → writer_in c ≢ Some conn → state_after c e ≡ c }
    ensures written { (c : ReplicaRecord) (e : Event) →
        Sound c → written_in c < written_in (state_after c e) → IsWritersPacket c e }
    ensures pending { (c : ReplicaRecord) (e : Event) →
        Sound c → length c.pending < length (state_after c e).pending → IsWritersPacket c e }
{}

/// A recovery's end never lengthens a replica.
pub fn updates_never_lengthen()
    ensures { (c : ReplicaRecord) (recovery : Stamp) (bytes : ℕ) →
        written_in (state_after c (event.Update recovery bytes)) ≤ written_in c }
{}

/// There is a visible length exactly where some reader may read, unless the replica is broken,
/// which refuses every read.
pub fn readers_see_the_visible()
    ensures none { (c : ReplicaRecord) → c.is_broken ≡ false → (visible_in c ≡ None) ↔ RefusesReads c }
    ensures broken { (c : ReplicaRecord) → c.is_broken ≡ true → RefusesReads c }
{}
