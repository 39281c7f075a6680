//! CRC32 and CRC32C sums of bodies of bytes and of their chunks.
//!
//! CRC32 is that of Ethernet and zip (the polynomial 0x04C11DB7), CRC32C that of iSCSI (RFC 3720: the
//! polynomial 0x1EDC6F41). For both the register is all ones at first, takes each byte least bit
//! first, and is inverted at the end. No call takes memory.
#![tactic(auto)]

ghost use Rattle.std.specs.Prelude.{◌≡◌, ℕ, List, ◌++◌, ◌↔◌, IsTrue};
ghost use Rattle.hd_base.specs.Bytes.{IsBytes};
ghost use Rattle.chunk_sums.specs.Crc.{sum_of, extended, register, polynomial, HasSum};

mod ahead;
mod castagnoli;
mod chunks;
mod copying;
mod four;
mod ieee;
mod lanes;
mod slicing;
mod tables;
mod window;

pub use chunks::{first_bad, piece_count, write_sums};
pub use copying::write_sums_and_copy;
use hd_base::SumKind;
use tables::{Crc32, Crc32c};

/// Whether bytes have a sum of this kind: all but `Null` have.
pub fn has_sum(kind: SumKind) -> bool
    ensures { IsTrue result ↔ HasSum kind }
{
    match kind {
        SumKind::Null => false,
        SumKind::Crc32 | SumKind::Crc32c => true,
    }
}

/// The sum of a body.
pub fn crc(kind: SumKind, body: &[u8]) -> u32
    requires { HasSum kind }
    ensures { result ≡ sum_of kind body.now }
{
    !register_after(kind, u32::MAX, body)
}

/// The sum of a body whose front has the sum `sum`, and which goes on with `body`.
pub fn extend(kind: SumKind, sum: u32, body: &[u8]) -> u32
    requires { HasSum kind }
    ensures value { result ≡ extended kind sum body.now }
    ensures whole { (front : List ℕ) → IsBytes front → sum ≡ sum_of kind front
        → result ≡ sum_of kind (front ++ body.now) }
{
    !register_after(kind, !sum, body)
}

/// From how many bytes on it is worth the buffer to move them ahead.
const LONG: usize = 1024;

/// The register that starts at `start` after all bytes of `body`.
fn register_after(kind: SumKind, start: u32, body: &[u8]) -> u32
    requires { HasSum kind }
    ensures { result ≡ register (polynomial kind) start body.now }
{
    match kind {
        SumKind::Null => unreachable!(),
        SumKind::Crc32 => slicing::sliced::<Crc32>(start, body),
        SumKind::Crc32c => crc32c_register(start, body),
    }
}

/// The register of CRC32C that starts at `start` after all bytes of `body`.
fn crc32c_register(start: u32, body: &[u8]) -> u32
    ensures { result ≡ register (polynomial SumKind.Crc32c) start body.now }
{
    if body.len() < LONG {
        slicing::sliced::<Crc32c>(start, body)
    } else {
        ahead::moved_ahead(start, body)
    }
}
