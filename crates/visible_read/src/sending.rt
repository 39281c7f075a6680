//! Messages for which there is room.

ghost use Rattle.std.specs.Prelude.{◌≡◌, length, option_map, IfSome, OnOk};
ghost use Rattle.link_pieces.specs.Pieces.{SendsNothing};
ghost use Rattle.visible_read.specs.Sendings.{HasRoom, SendsText};

use hd_base::LinkOut;
use link_pieces::{send_piece, take_room};
use std::alloc::{AllocError, Global};

/// Whether a message was sent for which there was room.
#[derive(Clone, Copy, Debug)]
pub enum Sending {
    /// It was sent, or is too long to be sent.
    Sent,
    /// The link failed, and its count of faults rose.
    LinkFailed,
}

/// Takes the room for a message, if there is one.
pub(crate) fn make_room<O: LinkOut>(
    alloc: Global,
    text: &Option<Vec<u8>>,
    out: &mut O,
) -> Result<(), AllocError>
    ensures room { OnOk result (HasRoom (option_map (λ t. t.items) text.now) (O.room out.new)) }
    ensures quiet { SendsNothing O.LinkOut out.old out.new }
{
    take_room(alloc, out, text_len(text))
}

/// How long a message is, if there is one.
pub(crate) fn text_len(text: &Option<Vec<u8>>) -> usize
    ensures { IfSome text.now (λ t. result ≡ length t.items) }
{
    match text {
        Some(text) => text.len(),
        None => 0,
    }
}

/// Sends a message for which there is room, if there is one.
pub(crate) fn send_text<O: LinkOut>(text: &Option<Vec<u8>>, out: &mut O) -> Sending
    requires { HasRoom (option_map (λ t. t.items) text.now) (O.room out.old) }
    ensures { SendsText O.LinkOut (option_map (λ t. t.items) text.now) result out.old out.new }
{
    let Some(text) = text else {
        return Sending::Sent;
    };
    match send_piece(out, text) {
        Ok(_) => Sending::Sent,
        Err(_) => Sending::LinkFailed,
    }
}
