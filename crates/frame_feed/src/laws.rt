//! Laws of feeds. Each function has an empty body; its clauses say what holds of every feed, whatever
//! is pushed to it and asked of it.

ghost use Rattle.std.specs.Prelude.{◌≡◌, ℕ, List, []};
ghost use Rattle.frame_feed.specs.declared.notes.Message.{Message};
ghost use Rattle.frame_feed.specs.Feeds.{FeedState, holding};
ghost use Rattle.frame_feed.specs.Streams.{Turn, Runs, SplitsInto, AreSameKinds, pushed, given};

/// However the bytes of a stream are cut into pieces, the messages that a feed gives are those of
/// the stream, one after the other, and what it still holds is the rest. No other messages of these
/// kinds are: so the pieces don't matter.
pub fn pieces_do_not_matter()
    ensures stream { (turns : List Turn) (end : FeedState) → Runs turns (holding []) end
        → SplitsInto (pushed turns) (given turns) end.rest }
    ensures only { (turns : List Turn) (end : FeedState) (ms : List Message) (rest : List ℕ) →
        Runs turns (holding []) end → SplitsInto (pushed turns) ms rest → AreSameKinds ms (given turns)
        → (ms ≡ given turns) × (rest ≡ end.rest) }
{}
