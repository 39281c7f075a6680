//! The words that stand for one thing each.

ghost use Rattle.std.specs.Prelude.{◌≡◌, find, bytes_eq};
ghost use Rattle.hd_base.specs.Wire.{state_name};
ghost use Rattle.script_lang.specs.Names.{named, keyword_name, keywords as all_keywords, sum_name as name_of_sums, sum_kinds, states as all_states, event_name as name_of_event, events as all_events};

use crate::faults::BadKind;
use hd_base::{ReplicaState, SumKind};

/// The first word of a line behind the head.
#[derive(Clone, Copy, Debug, PartialEq, Eq)]
pub(crate) enum Keyword {
    Sums,
    Create,
    Append,
    Write,
    Fill,
    Hflush,
    Hsync,
    Close,
    Read,
    Recover,
    Cut,
    Fault,
    Stop,
    Start,
    Run,
    Settle,
    Step,
    Expect,
}

const KEYWORDS: [Keyword; 18] = [
    Keyword::Sums,
    Keyword::Create,
    Keyword::Append,
    Keyword::Write,
    Keyword::Fill,
    Keyword::Hflush,
    Keyword::Hsync,
    Keyword::Close,
    Keyword::Read,
    Keyword::Recover,
    Keyword::Cut,
    Keyword::Fault,
    Keyword::Stop,
    Keyword::Start,
    Keyword::Run,
    Keyword::Settle,
    Keyword::Step,
    Keyword::Expect,
];

impl Keyword {
    /// The word that a line has first.
    #[tactic(auto, unfolding(crate::specs::Names::keyword_name))]
    fn name(self) -> &'static [u8]
        ensures { result.now ≡ keyword_name self }
    {
        match self {
            Keyword::Sums => b"sums",
            Keyword::Create => b"create",
            Keyword::Append => b"append",
            Keyword::Write => b"write",
            Keyword::Fill => b"fill",
            Keyword::Hflush => b"hflush",
            Keyword::Hsync => b"hsync",
            Keyword::Close => b"close",
            Keyword::Read => b"read",
            Keyword::Recover => b"recover",
            Keyword::Cut => b"cut",
            Keyword::Fault => b"fault",
            Keyword::Stop => b"stop",
            Keyword::Start => b"start",
            Keyword::Run => b"run",
            Keyword::Settle => b"settle",
            Keyword::Step => b"step",
            Keyword::Expect => b"expect",
        }
    }
}

/// The kind of a line, by its first word.
pub(crate) fn read_keyword(word: &[u8]) -> Result<Keyword, BadKind>
    ensures { result ≡ named keyword_name all_keywords word.now }
{
    find_keyword(&KEYWORDS, word).ok_or(BadKind::Word)
}

/// The first of these kinds of lines with this first word.
fn find_keyword(keywords: &[Keyword], word: &[u8]) -> Option<Keyword>
    ensures { result ≡ find (λ x. bytes_eq (keyword_name x) word.now) keywords.now }
{
    keywords
        .iter()
        .copied()
        .find(|keyword| keyword.name() == word)
}

const SUM_KINDS: [SumKind; 3] = [SumKind::Null, SumKind::Crc32, SumKind::Crc32c];

/// The word for a kind of sums.
#[tactic(auto, unfolding(crate::specs::Names::sum_name))]
fn sum_name(kind: SumKind) -> &'static [u8]
    ensures { result.now ≡ name_of_sums kind }
{
    match kind {
        SumKind::Null => b"null",
        SumKind::Crc32 => b"crc32",
        SumKind::Crc32c => b"crc32c",
    }
}

/// The kind of sums that a word names.
pub(crate) fn read_sum_kind(word: &[u8]) -> Result<SumKind, BadKind>
    ensures { result ≡ named name_of_sums sum_kinds word.now }
{
    find_sum_kind(&SUM_KINDS, word).ok_or(BadKind::Word)
}

/// The first of these kinds of sums with this name.
fn find_sum_kind(kinds: &[SumKind], word: &[u8]) -> Option<SumKind>
    ensures { result ≡ find (λ x. bytes_eq (name_of_sums x) word.now) kinds.now }
{
    kinds.iter().copied().find(|kind| sum_name(*kind) == word)
}

const STATES: [ReplicaState; 5] = [
    ReplicaState::Finalized,
    ReplicaState::Rbw,
    ReplicaState::Rwr,
    ReplicaState::Rur,
    ReplicaState::Temporary,
];

/// The state of a replica that a word names.
pub(crate) fn read_state(word: &[u8]) -> Result<ReplicaState, BadKind>
    ensures { result ≡ named state_name all_states word.now }
{
    state_named(word).ok_or(BadKind::Word)
}

/// The state of a replica with this name.
pub(crate) fn state_named(word: &[u8]) -> Option<ReplicaState>
    ensures { result ≡ find (λ x. bytes_eq (state_name x) word.now) all_states }
{
    find_state(&STATES, word)
}

/// The first of these states with this name.
fn find_state(states: &[ReplicaState], word: &[u8]) -> Option<ReplicaState>
    ensures { result ≡ find (λ x. bytes_eq (state_name x) word.now) states.now }
{
    states
        .iter()
        .copied()
        .find(|state| state.name().as_bytes() == word)
}

/// The event that a `step` line names.
#[derive(Clone, Copy, Debug, PartialEq, Eq)]
pub(crate) enum EventName {
    Writer,
    Down,
    Ready,
    Up,
}

const EVENTS: [EventName; 4] = [
    EventName::Writer,
    EventName::Down,
    EventName::Ready,
    EventName::Up,
];

impl EventName {
    /// The word for the event.
    #[tactic(auto, unfolding(crate::specs::Names::event_name))]
    fn name(self) -> &'static [u8]
        ensures { result.now ≡ name_of_event self }
    {
        match self {
            EventName::Writer => b"writer",
            EventName::Down => b"down",
            EventName::Ready => b"ready",
            EventName::Up => b"up",
        }
    }
}

/// The event that a word names.
pub(crate) fn read_event(word: &[u8]) -> Result<EventName, BadKind>
    ensures { result ≡ named name_of_event all_events word.now }
{
    find_event(&EVENTS, word).ok_or(BadKind::Word)
}

/// The first of these events with this name.
fn find_event(events: &[EventName], word: &[u8]) -> Option<EventName>
    ensures { result ≡ find (λ x. bytes_eq (name_of_event x) word.now) events.now }
{
    events.iter().copied().find(|event| event.name() == word)
}
