//! How a run ends.

ghost use Rattle.std.specs.Prelude.{◌≡◌, codes};
ghost use Rattle.dn_run.specs.Exits.{status_of, name_of};

use hd_base::{FileName, NodeId};
use run_words::{UsageRule, WordsFault};
use script_lang::{BadKind, ScriptError};
use std::alloc::AllocError;
use whole_play::{Expected, RunFault};
use whole_streams::ReadFault;

/// How a run ended. After `Done` and `Differs` the whole report was written; after `ReportFault` a front of it; after any
/// other exit nothing.
#[derive(Debug, PartialEq, Eq, Drop)]
pub enum Exit {
    /// The script was played, and each `expect` line has what it expects.
    Done,
    /// The words break this rule.
    Usage {
        rule: UsageRule,
    },
    /// The script breaks a rule at this line, from 1; 0 is the script as a whole.
    BadScript {
        line: u64,
        kind: BadKind,
    },
    /// The script couldn't be read: the source failed.
    ScriptFault,
    /// The report couldn't be written whole: the sink failed.
    ReportFault,
    /// Memory ran out.
    Memory,
    /// This `expect` line is the first that wants another replica than there is; there may be none.
    Differs {
        line: u64,
        want: Expected,
        got: Option<Expected>,
    },
    /// The shelf of a node, or the drawer of one of its replicas, failed.
    ShelfFault {
        node: NodeId,
    },
    /// The roads or a link failed.
    RoadFault,
    /// The shelf of a node isn't empty. This is the first of its files by name.
    NotEmpty {
        node: NodeId,
        name: FileName,
    },
}

impl Exit {
    /// The exit status of the program: 0 to 11. 9 and 10 are no exit's so far.
    pub fn status(&self) -> u8
        ensures { result ≡ status_of self.now }
    {
        match self {
            Exit::Done => 0,
            Exit::Usage { .. } => 1,
            Exit::BadScript { .. } => 2,
            Exit::ScriptFault => 3,
            Exit::ReportFault => 4,
            Exit::Memory => 5,
            Exit::Differs { .. } => 6,
            Exit::ShelfFault { .. } => 7,
            Exit::RoadFault => 8,
            Exit::NotEmpty { .. } => 11,
        }
    }

    /// The exit's name.
    pub fn name(&self) -> &'static str
        ensures { result.now ≡ name_of self.now }
    {
        match self {
            Exit::Done => "Done",
            Exit::Usage { .. } => "Usage",
            Exit::BadScript { .. } => "BadScript",
            Exit::ScriptFault => "ScriptFault",
            Exit::ReportFault => "ReportFault",
            Exit::Memory => "Memory",
            Exit::Differs { .. } => "Differs",
            Exit::ShelfFault { .. } => "ShelfFault",
            Exit::RoadFault => "RoadFault",
            Exit::NotEmpty { .. } => "NotEmpty",
        }
    }
}

impl From<WordsFault> for Exit {
    ghost use Rattle.std.specs.Prelude.{◌≡◌};
    ghost use Rattle.dn_run.specs.Exits.{words_exit};

    ghost from_gives = { λ fault exit. exit ≡ words_exit fault };

    fn from(fault: WordsFault) -> Exit {
        match fault {
            WordsFault::Usage { rule } => Exit::Usage { rule },
            WordsFault::Memory => Exit::Memory,
        }
    }
}

impl From<ReadFault> for Exit {
    ghost use Rattle.std.specs.Prelude.{◌≡◌};
    ghost use Rattle.dn_run.specs.Exits.{read_exit};

    ghost from_gives = { λ fault exit. exit ≡ read_exit fault };

    fn from(fault: ReadFault) -> Exit {
        match fault {
            ReadFault::TooLong => Exit::BadScript {
                line: 0,
                kind: BadKind::TooLong,
            },
            ReadFault::Failed => Exit::ScriptFault,
            ReadFault::Memory => Exit::Memory,
        }
    }
}

impl From<ScriptError> for Exit {
    ghost use Rattle.std.specs.Prelude.{◌≡◌};
    ghost use Rattle.dn_run.specs.Exits.{script_exit};

    ghost from_gives = { λ error exit. exit ≡ script_exit error };

    fn from(error: ScriptError) -> Exit {
        match error {
            ScriptError::Bad { line, kind } => Exit::BadScript { line, kind },
            ScriptError::Memory => Exit::Memory,
        }
    }
}

impl From<RunFault> for Exit {
    ghost use Rattle.std.specs.Prelude.{◌≡◌};
    ghost use Rattle.dn_run.specs.Exits.{run_exit};

    ghost from_gives = { λ fault exit. exit ≡ run_exit fault };

    fn from(fault: RunFault) -> Exit {
        match fault {
            RunFault::RoadFault => Exit::RoadFault,
            RunFault::ShelfFault { node } => Exit::ShelfFault { node },
            RunFault::NotEmpty { node, name } => Exit::NotEmpty { node, name },
            RunFault::Memory => Exit::Memory,
        }
    }
}
