//! What the lines of a report are counted by.

ghost use Rattle.std.specs.Prelude.{◌≡◌};
ghost use Rattle.storm_summary.specs.Kinds.{is_same, kind_of, kind_of_state, says_ok, bytes_of};

use hd_base::ReplicaState;
use script_lang::{Answer, FlushResult, RecoveryResult, ReportLine, SetupResult};

/// What a line of a report is counted as.
#[derive(Clone, Copy, Debug, PartialEq, Eq)]
pub enum Kind {
    /// A FINALIZED replica that isn't broken.
    Finalized,
    /// A replica being written (RBW) that isn't broken.
    Rbw,
    /// A replica that waits to be recovered (RWR) and isn't broken.
    Rwr,
    /// A replica under recovery (RUR) that isn't broken.
    Rur,
    /// A broken replica.
    Broken,
    /// The answer to a command that was done.
    Ok,
    /// The answer to a command that wasn't.
    Failed,
    /// A block recovery that was done.
    Recovered,
    /// Nothing that is counted.
    Other,
}

impl Kind {
    /// Whether it is this one.
    pub(crate) fn is(self, other: Kind) -> bool
        ensures { result ≡ is_same self other }
    {
        matches!(
            (self, other),
            (Kind::Finalized, Kind::Finalized)
                | (Kind::Rbw, Kind::Rbw)
                | (Kind::Rwr, Kind::Rwr)
                | (Kind::Rur, Kind::Rur)
                | (Kind::Broken, Kind::Broken)
                | (Kind::Ok, Kind::Ok)
                | (Kind::Failed, Kind::Failed)
                | (Kind::Recovered, Kind::Recovered)
                | (Kind::Other, Kind::Other)
        )
    }
}

/// What a line is counted as.
pub(crate) fn kind_of(line: &ReportLine) -> Kind
    ensures { result ≡ kind_of line.now }
{
    match line {
        ReportLine::Replica { sum: None, .. } => Kind::Broken,
        ReportLine::Replica { state, .. } => kind_of_state(*state),
        ReportLine::Answer { answer, .. } => {
            if says_ok(answer) {
                Kind::Ok
            } else {
                Kind::Failed
            }
        }
        ReportLine::Recovery {
            result: RecoveryResult::Ok { .. },
            ..
        } => Kind::Recovered,
        _ => Kind::Other,
    }
}

/// What a replica in a state is counted as that isn't broken.
fn kind_of_state(state: ReplicaState) -> Kind
    ensures { result ≡ kind_of_state state }
{
    match state {
        ReplicaState::Finalized => Kind::Finalized,
        ReplicaState::Rbw => Kind::Rbw,
        ReplicaState::Rwr => Kind::Rwr,
        ReplicaState::Rur => Kind::Rur,
        ReplicaState::Temporary => Kind::Other,
    }
}

/// Whether an answer's result begins with `ok`.
fn says_ok(answer: &Answer) -> bool
    ensures { result ≡ says_ok answer.now }
{
    match answer {
        Answer::Create(result) | Answer::Append(result) => {
            matches!(result, SetupResult::Ok { .. })
        }
        Answer::Hflush(result) | Answer::Hsync(result) | Answer::Close(result) => {
            matches!(result, FlushResult::Ok { .. })
        }
    }
}

/// The written bytes that a line tells of a replica that isn't broken.
pub(crate) fn bytes_of(line: &ReportLine) -> u64
    ensures { result ≡ bytes_of line.now }
{
    match line {
        ReportLine::Replica {
            written,
            sum: Some(_),
            ..
        } => *written,
        _ => 0,
    }
}
