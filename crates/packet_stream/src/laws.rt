//! Laws of streams. Each function has an empty body; its clauses say what holds of every stream.

ghost use Rattle.std.specs.Prelude.{ℕ, ◌≡◌, ◌≤◌, ◌<◌, ◌+◌, ◌%◌, ◌==◌, ◌++◌, Bool, false, List, length};
ghost use Rattle.hd_base.specs.SumRules.{Rule};
ghost use Rattle.packet_stream.specs.Streams.{StreamState, IsStream, start_in, written_in, begun, with_bytes, next_packet, formed, oldest_acked};
ghost use Rattle.packet_stream.specs.Carried.{Carries, IsPiece};
ghost use Rattle.packet_stream.specs.Extents.{greatest_end, packet_limit};
ghost use Rattle.replica_core.specs.Extents.{chunk_start};

/// Forming a packet leaves the bytes written, and writing adds to them.
pub fn forming_keeps_the_written()
    ensures begun { (r : Rule) (base : ℕ) → written_in (begun r base) ≡ base }
    ensures wrote { (s : StreamState) (bytes : List ℕ) →
        written_in (with_bytes s bytes) ≡ written_in s + length bytes }
    ensures formed { (s : StreamState) (end : ℕ) (sync : Bool) →
        IsStream s → s.sent < end → end ≤ written_in s → written_in (formed s end sync) ≡ written_in s }
{}

/// A stream keeps the bytes written that no packet has yet, and each packet has the bytes written where
/// it lies, which begins no later than the packets before it end. So the packets of a session join to
/// the bytes written.
pub fn packets_carry_the_written()
    ensures begun { (r : Rule) (v : List ℕ) → Carries v (begun r (length v)) }
    ensures wrote { (s : StreamState) (v bytes : List ℕ) → Carries v s → Carries (v ++ bytes) (with_bytes s bytes) }
    ensures formed { (s : StreamState) (v : List ℕ) (end : ℕ) (sync : Bool) →
        IsStream s → s.sent < end → end ≤ written_in s → Carries v s → Carries v (formed s end sync) }
    ensures packet { (s : StreamState) (v : List ℕ) (end : ℕ) (sync : Bool) →
        IsStream s → s.sent < end → end ≤ written_in s → Carries v s → IsPiece v (next_packet s end sync) }
    ensures near { (s : StreamState) → IsStream s → start_in s ≤ s.sent }
    ensures acked { (s : StreamState) (v : List ℕ) → Carries v s → Carries v (oldest_acked s) }
{}

/// A packet that ends no later than its greatest end has no more bytes than the limit, and ends within
/// the chunk that it begins amid.
pub fn packets_are_short()
    ensures bytes { (s : StreamState) (end : ℕ) (sync : Bool) → end ≤ greatest_end s.rule.chunk (start_in s) →
        end ≤ written_in s → length (next_packet s end sync).body ≤ packet_limit s.rule.chunk }
    ensures amid { (s : StreamState) (end : ℕ) → end ≤ greatest_end s.rule.chunk (start_in s) →
        (start_in s % s.rule.chunk == 0) ≡ false → end ≤ chunk_start s.rule.chunk (start_in s) + s.rule.chunk }
{}
