//! Where the packets of a stream begin and end.

ghost use Rattle.std.specs.Prelude.{◌≡◌, ◌≤◌, ◌<◌, ◌+◌};
ghost use Rattle.hd_base.specs.SumRules.{IsChunkSize};
ghost use Rattle.replica_core.specs.Extents.{chunk_start};
ghost use Rattle.packet_stream.specs.Extents.{packet_limit, next_start, greatest_end, chunk_rest};

/// How many bytes a packet has at most where chunks divide it: 126 chunks of 512 bytes (HDFS
/// `dfs.client-write-packet-size`, without header and sums).
pub const PACKET_SIZE: u64 = 64_512;

/// How many bytes a block may have.
pub const BLOCK_LIMIT: u64 = 134_217_728;

/// The first byte of the chunk that this byte lies in.
pub(crate) fn start_of_chunk(chunk: u64, offset: u64) -> u64
    requires { IsChunkSize chunk }
    ensures value { result ≡ chunk_start chunk offset }
    ensures before { result ≤ offset }
{
    offset - offset % chunk
}

/// The most bytes of a packet that begins where a chunk does.
pub(crate) fn limit_of_packet(chunk: u64) -> u64
    requires { IsChunkSize chunk }
    ensures value { result ≡ packet_limit chunk }
    ensures some { chunk ≤ result }
    ensures few { result ≤ 65536 }
{
    chunk * (PACKET_SIZE / chunk).max(1)
}

/// Where the packet behind the sent end begins.
pub(crate) fn start_behind(chunk: u64, base: u64, sent: u64) -> u64
    requires chunk { IsChunkSize chunk }
    requires base { base ≤ sent }
    ensures value { result ≡ next_start chunk base sent }
    ensures near { result ≤ sent }
{
    if sent % chunk == 0 {
        sent
    } else {
        start_of_chunk(chunk, sent).max(base)
    }
}

/// The greatest end of a packet that begins here.
pub(crate) fn greatest_end_from(chunk: u64, start: u64) -> u64
    requires chunk { IsChunkSize chunk }
    requires start { start ≤ BLOCK_LIMIT }
    ensures value { result ≡ greatest_end chunk start }
    ensures past { start < result }
{
    if start % chunk == 0 {
        start + limit_of_packet(chunk)
    } else {
        start_of_chunk(chunk, start) + chunk
    }
}

/// How many bytes there are from here to the end of the chunk, a whole one where a chunk begins.
pub(crate) fn rest_of_chunk(chunk: u64, start: u64) -> u64
    requires { IsChunkSize chunk }
    ensures value { result ≡ chunk_rest chunk start }
    ensures some { 1 ≤ result }
    ensures within { result ≤ chunk }
{
    chunk - start % chunk
}
