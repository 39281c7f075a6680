//! The message of a refusal.

ghost use Rattle.std.specs.Prelude.{◌≡◌, ◌++◌, IfOk, OnOk};
ghost use Rattle.request_refusals.specs.Texts.{spaced, spaced_signed, spaced_if_there, kept_text, values_text, refusal_text};

use crate::refusals::RequestRefusal;
use hd_base::{ByteList, Stamp};
use itoa::Buffer;
use replica_core::Refusal;
use std::alloc::{AllocError, Global};

impl RequestRefusal {
    /// The message: the number and the values that are kept, in the order of their fields, in decimal, with a
    /// space between two. A state and a rule are told by their numbers, and what isn't there is a dash.
    pub fn text(&self, alloc: Global) -> Result<ByteList, AllocError>
        ensures { IfOk result (λ text. text ≡ refusal_text self.now) }
    {
        let mut buffer = Buffer::new();
        let mut out = Vec::from_slice(alloc, buffer.format(self.number()).as_bytes())?;
        put_values(self, &mut out)?;
        Ok(ByteList::from_vec(out))
    }
}

/// Appends the values that a refusal keeps.
#[tactic(auto, unfolding(crate::specs::Texts::values_text))]
fn put_values(refusal: &RequestRefusal, out: &mut Vec<u8>) -> Result<(), AllocError>
    ensures { OnOk result (out.new.items ≡ out.old.items ++ values_text refusal.now) }
{
    match *refusal {
        RequestRefusal::Core(refusal) => put_kept(&refusal, out),
        RequestRefusal::Stage { stage } => put(out, u64::from(stage)),
        RequestRefusal::Checksum { kind, chunk } => {
            put(out, u64::from(kind))?;
            put(out, u64::from(chunk))
        }
        RequestRefusal::TooMany { targets } => put(out, targets),
        RequestRefusal::Pool | RequestRefusal::File | RequestRefusal::Memory => Ok(()),
    }
}

/// Appends the values that a replica's refusal keeps.
#[tactic(auto, unfolding(crate::specs::Texts::kept_text))]
fn put_kept(refusal: &Refusal, out: &mut Vec<u8>) -> Result<(), AllocError>
    ensures { OnOk result (out.new.items ≡ out.old.items ++ kept_text refusal.now) }
{
    match *refusal {
        Refusal::WrongState { state } => put(out, u64::from(state.number())),
        Refusal::Stale { held, low, high } => put_stamps(out, held, low, high),
        Refusal::LengthOut {
            acked,
            written,
            min,
            max,
        } => put_lengths(out, acked, written, min, max),
        Refusal::Gap { written, offset } => {
            put(out, written)?;
            put(out, offset)
        }
        Refusal::BadSum { chunk } => put(out, chunk),
        Refusal::Piece { rule } => put(out, u64::from(rule.number())),
        Refusal::RecoveryHeld { id } => put(out, id.0),
        Refusal::Seqno { want, got } => {
            put_if_there(out, want)?;
            put_signed(out, got)
        }
        Refusal::OutOfRange { visible } => put(out, visible),
        Refusal::NoReplica | Refusal::Exists | Refusal::NotWriter | Refusal::Broken => Ok(()),
    }
}

/// Appends three stamps.
fn put_stamps(out: &mut Vec<u8>, held: Stamp, low: Stamp, high: Stamp) -> Result<(), AllocError>
    ensures { OnOk result (out.new.items ≡ out.old.items ++ ((spaced held.0 ++ spaced low.0) ++ spaced high.0)) }
{
    put(out, held.0)?;
    put(out, low.0)?;
    put(out, high.0)
}

/// Appends four lengths.
fn put_lengths(
    out: &mut Vec<u8>,
    acked: u64,
    written: u64,
    min: u64,
    max: u64,
) -> Result<(), AllocError>
    ensures { OnOk result
        (out.new.items ≡ out.old.items ++ (((spaced acked ++ spaced written) ++ spaced min) ++ spaced max)) }
{
    put(out, acked)?;
    put(out, written)?;
    put(out, min)?;
    put(out, max)
}

/// Appends a space and a number.
#[tactic(auto, unfolding(crate::specs::Texts::spaced))]
fn put(out: &mut Vec<u8>, number: u64) -> Result<(), AllocError>
    ensures { OnOk result (out.new.items ≡ out.old.items ++ spaced number) }
{
    let mut buffer = Buffer::new();
    out.push(b' ')?;
    out.extend_from_slice(buffer.format(number).as_bytes())
}

/// Appends a space and a number that may be negative.
#[tactic(auto, unfolding(crate::specs::Texts::spaced_signed))]
fn put_signed(out: &mut Vec<u8>, number: i64) -> Result<(), AllocError>
    ensures { OnOk result (out.new.items ≡ out.old.items ++ spaced_signed number) }
{
    let mut buffer = Buffer::new();
    out.push(b' ')?;
    out.extend_from_slice(buffer.format(number).as_bytes())
}

/// Appends a space and a number, or a dash where there is none.
fn put_if_there(out: &mut Vec<u8>, number: Option<i64>) -> Result<(), AllocError>
    ensures { OnOk result (out.new.items ≡ out.old.items ++ spaced_if_there number) }
{
    match number {
        Some(number) => put_signed(out, number),
        None => out.extend_from_slice(b" -"),
    }
}
