//! A member's answer to its request is never too long to be written.

ghost use Rattle.std.specs.Prelude.{◌≤◌, length};
ghost use Rattle.pipe_setup.specs.RequestRefusals.Texts.{spaced, spaced_signed, kept_text, values_text};
ghost use Rattle.pipe_setup.specs.MemberCore.SetupAnswer.TheVariants as answer;
ghost use Rattle.pipe_member.specs.Answering.{IsWritten, UnreachedIsWritten, BelowIsWritten, max_number, max_values};

use op_headers::WriteOp;
use pipe_setup::RequestRefusal;
use replica_core::Refusal;

/// Each answer of a member to its request is written: its message is within the limit of 65,536 bytes. Of a mirror that
/// couldn't be had this is so since the request, which names it, was read; of what a mirror named, since its answer was.
pub fn answers_are_written(op: &WriteOp, refusal: RequestRefusal)
    ensures success { IsWritten op.now answer.Success }
    ensures unreached { UnreachedIsWritten op.now }
    ensures below { BelowIsWritten op.now }
    ensures refused { IsWritten op.now (answer.Refused refusal) }
{
    values_are_short(refusal);
}

/// The values of a refusal are few and short.
fn values_are_short(refusal: RequestRefusal)
    ensures { length (values_text refusal) ≤ max_values }
{
    match refusal {
        RequestRefusal::Core(why) => kept_are_short(why),
        RequestRefusal::Stage { stage } => number_is_short(stage as u64),
        RequestRefusal::Checksum { kind, chunk } => {
            number_is_short(kind as u64);
            number_is_short(chunk as u64);
        }
        RequestRefusal::TooMany { targets } => number_is_short(targets),
        RequestRefusal::Pool | RequestRefusal::File | RequestRefusal::Memory => {}
    }
}

/// So are those of a replica's refusal.
fn kept_are_short(refusal: Refusal)
    ensures { length (kept_text refusal) ≤ max_values }
{
    match refusal {
        Refusal::Stale { held, low, high } => {
            number_is_short(held.0);
            number_is_short(low.0);
            number_is_short(high.0);
        }
        Refusal::LengthOut {
            acked,
            written,
            min,
            max,
        } => {
            number_is_short(acked);
            number_is_short(written);
            number_is_short(min);
            number_is_short(max);
        }
        Refusal::Gap { written, offset } => {
            number_is_short(written);
            number_is_short(offset);
        }
        Refusal::BadSum { chunk } => number_is_short(chunk),
        Refusal::RecoveryHeld { id } => number_is_short(id.0),
        Refusal::OutOfRange { visible } => number_is_short(visible),
        Refusal::Seqno { want, got } => {
            signed_is_short(want.unwrap_or(0));
            signed_is_short(got);
        }
        Refusal::NoReplica
        | Refusal::Exists
        | Refusal::WrongState { .. }
        | Refusal::NotWriter
        | Refusal::Piece { .. }
        | Refusal::Broken => {}
    }
}

/// A number has at most twenty digits, and a space in front.
fn number_is_short(number: u64)
    ensures { length (spaced number) ≤ max_number }
{}

/// So has one that may be negative, with its sign.
fn signed_is_short(number: i64)
    ensures { length (spaced_signed number) ≤ max_number }
{}
