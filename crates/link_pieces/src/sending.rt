//! Sending a piece.

ghost use Rattle.std.specs.Prelude.{◌<◌, length, OnOk};
ghost use Rattle.link_pieces.specs.Pieces.{PieceEnds, RestEnds, SendsNothing};

use hd_base::{LinkError, LinkOut};
use std::alloc::{AllocError, Global};

/// Takes the room for one piece of at most so many bytes, so that it can be sent without memory. Want of memory leaves
/// what was sent as it was.
pub fn take_room<O: LinkOut>(alloc: Global, outward: &mut O, len: usize) -> Result<(), AllocError>
    ensures covers { OnOk result (len < O.room outward.new) }
    ensures quiet { SendsNothing O.LinkOut outward.old outward.new }
{
    match outward.room(alloc, len as u64) {
        Ok(()) => Ok(()),
        Err(_) => Err(AllocError),
    }
}

/// Sends a piece for which there is room: the whole of it, as one piece, and what the link leaves of it after it. It takes
/// no memory, and fails only where the link's count of faults rises. Answers how many bytes the link took, which are all.
pub fn send_piece<O: LinkOut>(outward: &mut O, piece: &[u8]) -> Result<usize, LinkError>
    requires { length piece.now < O.room outward.old }
    ensures { PieceEnds O.LinkOut piece.now outward.old outward.new result }
{
    let count = outward.send(piece)?;
    if count < piece.len() {
        return Ok(count + send_rest(outward, piece.split_at(count).1)?);
    }
    Ok(count)
}

/// Sends what a link left of a piece, and answers how many bytes it took.
fn send_rest<O: LinkOut>(outward: &mut O, piece: &[u8]) -> Result<usize, LinkError>
    requires { length piece.now < O.room outward.old }
    ensures { RestEnds O.LinkOut piece.now outward.old outward.new result }
{
    let mut rest = piece;
    let mut taken = 0;
    'pieces: while !rest.is_empty() {
        let count = outward.send(rest)?;
        (_, rest) = rest.split_at(count);
        taken += count;
    }
    Ok(taken)
}
