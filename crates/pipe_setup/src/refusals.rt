//! Why a member refuses a write request.

ghost use Rattle.std.specs.Prelude.{◌≡◌};
ghost use Rattle.pipe_setup.specs.Refusals.{refusal_of};

use hd_base::Receipt;
use member_core::RequestRefusal;
use replica_core::Refusal;

/// Why a member refuses a write request. Where the replica refused it, the receipt names the entry of the book; the others
/// come before the replica is asked.
#[derive(Clone, Copy, Debug, PartialEq, Eq)]
pub enum SetupRefusal {
    /// The replica refused it.
    Core(Refusal, Receipt),
    /// A pipeline of this stage isn't set up here.
    Stage { stage: u32 },
    /// The block is of another block pool.
    Pool,
    /// There is no such rule of sums, or the replica has another one.
    Checksum { kind: u32, chunk: u32 },
    /// The pipeline has too many members behind this one.
    TooMany { targets: u64 },
}

impl SetupRefusal {
    /// What the answer to the request says.
    pub fn refusal(&self) -> RequestRefusal
        ensures { result ≡ refusal_of self.now }
    {
        match *self {
            SetupRefusal::Core(refusal, _) => RequestRefusal::Core(refusal),
            SetupRefusal::Stage { stage } => RequestRefusal::Stage { stage },
            SetupRefusal::Pool => RequestRefusal::Pool,
            SetupRefusal::Checksum { kind, chunk } => RequestRefusal::Checksum { kind, chunk },
            SetupRefusal::TooMany { targets } => RequestRefusal::TooMany { targets },
        }
    }
}
