//! Lists in events, and lists of events.

ghost use Rattle.std.specs.Prelude.{◌≡◌};

use crate::events::{Event, FoundReplica};
use std::marker::Model;

/// Whether dials are answered, in their order; a dial past the list isn't.
#[derive(Debug, Drop)]
pub struct AnswerList {
    answers: Vec<bool>,
}

impl Model for AnswerList {
    ghost use Rattle.std.specs.Prelude.{Bool, List};

    ghost Value = { List Bool };

    ghost view = { λ l. l.answers.items };
}

impl AnswerList {
    /// The list of these answers.
    pub fn from_vec(answers: Vec<bool>) -> AnswerList
        ensures { result ≡ answers.items }
    {
        AnswerList { answers }
    }

    /// The answers in their order.
    pub fn as_slice(&self) -> &[bool]
        ensures { result.now ≡ self.now }
    {
        &self.answers
    }
}

/// What a restart finds, block by block.
#[derive(Debug, Drop)]
pub struct FoundList {
    replicas: Vec<FoundReplica>,
}

impl Model for FoundList {
    ghost use Rattle.std.specs.Prelude.{List};
    ghost use Rattle.world.specs.declared.events.FoundReplica.{FoundReplica};

    ghost Value = { List FoundReplica };

    ghost view = { λ l. l.replicas.items };
}

impl FoundList {
    /// The list of these replicas.
    pub fn from_vec(replicas: Vec<FoundReplica>) -> FoundList
        ensures { result ≡ replicas.items }
    {
        FoundList { replicas }
    }

    /// The replicas in their order.
    pub fn as_slice(&self) -> &[FoundReplica]
        ensures { result.now ≡ self.now }
    {
        &self.replicas
    }
}

/// Events in the order in which they happen.
#[derive(Debug, Drop)]
pub struct EventList {
    events: Vec<Event>,
}

impl Model for EventList {
    ghost use Rattle.std.specs.Prelude.{List};
    ghost use Rattle.world.specs.declared.events.Event.{Event};

    ghost Value = { List Event };

    ghost view = { λ l. l.events.items };
}

impl EventList {
    /// The list of these events.
    pub fn from_vec(events: Vec<Event>) -> EventList
        ensures { result ≡ events.items }
    {
        EventList { events }
    }

    /// The events in their order.
    pub fn as_slice(&self) -> &[Event]
        ensures { result.now ≡ self.now }
    {
        &self.events
    }
}

/// A world of so many nodes, and what happens in it.
#[derive(Debug, Drop)]
pub struct Schedule {
    /// How many nodes there are.
    pub nodes: u32,
    /// What happens, in order.
    pub events: EventList,
}
