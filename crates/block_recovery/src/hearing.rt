//! What comes on the connection to a member.

ghost use Rattle.std.specs.Prelude.{◌≡◌};
ghost use Rattle.block_recovery.specs.Hearing.{ends_with, looked_of};

use frame_feed::{Feed, FeedFault};
use link_messages::{Next, Streamed};
use op_headers::RecoveryAnswer;
use recovery_core::Heard;
use std::marker::Model;

/// The answer of a member, as it is taken off its connection.
#[derive(Debug, Drop)]
pub(crate) struct TakenAnswer {
    pub(crate) answer: RecoveryAnswer,
}

impl Model for TakenAnswer {
    ghost use Rattle.op_headers.specs.declared.answers.RecoveryAnswer.{RecoveryAnswer};

    ghost Value = { RecoveryAnswer };

    ghost view = { λ t. t.answer };
}

impl Streamed for TakenAnswer {
    ghost use Rattle.frame_feed.specs.Kinds.{answers};
    ghost use Rattle.frame_feed.specs.KindLaws.{answers_sound};
    ghost use Rattle.link_messages.specs.Empties.{responses_empty};

    ghost kind = { answers };

    ghost sound = { answers_sound };

    ghost empty = { responses_empty };

    fn take(feed: &mut Feed) -> Result<Option<TakenAnswer>, FeedFault> {
        taken(feed.next_answer())
    }
}

/// The same, as it is taken off a connection.
fn taken(found: Result<Option<RecoveryAnswer>, FeedFault>) -> Result<Option<TakenAnswer>, FeedFault>
    ensures { result ≡ found }
{
    match found {
        Ok(Some(answer)) => Ok(Some(TakenAnswer { answer })),
        Ok(None) => Ok(None),
        Err(fault) => Err(fault),
    }
}

/// What was found where what stands next on a connection was looked for.
#[derive(Debug, Drop)]
pub(crate) enum Looked {
    /// This.
    Heard(Heard),
    /// Nothing yet, or the end was taken already.
    Nothing,
    /// Memory ran out. What was received is kept.
    Memory,
}

/// Whether nothing more is heard after this: the connection has ended or failed, or can't be read on.
pub(crate) fn ends_with(came: &Next<TakenAnswer>) -> bool
    ensures { result ≡ ends_with came.now }
{
    matches!(came, Next::Unreadable | Next::End | Next::Failed)
}

/// What was found where this came.
pub(crate) fn looked_of(came: Next<TakenAnswer>) -> Looked
    ensures { result ≡ looked_of came }
{
    match came {
        Next::Message(taken) => Looked::Heard(Heard::Answer(taken.answer)),
        Next::Unreadable => Looked::Heard(Heard::Unreadable),
        Next::End | Next::Failed => Looked::Heard(Heard::End),
        Next::NotYet => Looked::Nothing,
        Next::Memory => Looked::Memory,
    }
}
