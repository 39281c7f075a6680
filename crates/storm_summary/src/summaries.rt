//! What the report of a storm comes to.

ghost use Rattle.std.specs.Prelude.{◌≡◌};
ghost use Rattle.storm_summary.specs.Summaries.{summary_of, how_many, all_bytes};

use crate::kinds::{Kind, bytes_of, kind_of};
use script_lang::ReportLine;

/// What the report of a storm comes to.
#[derive(Clone, Copy, Debug, PartialEq, Eq)]
pub struct Summary {
    /// FINALIZED replicas that aren't broken.
    pub finalized: usize,
    /// RBW replicas that aren't broken.
    pub rbw: usize,
    /// RWR replicas that aren't broken.
    pub rwr: usize,
    /// RUR replicas that aren't broken.
    pub rur: usize,
    /// Broken replicas.
    pub broken: usize,
    /// The written bytes of all replicas that aren't broken.
    pub bytes: u128,
    /// Commands that were done.
    pub ok: usize,
    /// Commands that weren't.
    pub failed: usize,
    /// Block recoveries that were done.
    pub recovered: usize,
}

/// What the lines of a report come to.
pub fn summarize(lines: &[ReportLine]) -> Summary
    ensures { result ≡ summary_of lines.now }
{
    Summary {
        finalized: how_many(lines, Kind::Finalized),
        rbw: how_many(lines, Kind::Rbw),
        rwr: how_many(lines, Kind::Rwr),
        rur: how_many(lines, Kind::Rur),
        broken: how_many(lines, Kind::Broken),
        bytes: all_bytes(lines),
        ok: how_many(lines, Kind::Ok),
        failed: how_many(lines, Kind::Failed),
        recovered: how_many(lines, Kind::Recovered),
    }
}

/// How many lines are counted as this.
fn how_many(lines: &[ReportLine], kind: Kind) -> usize
    ensures { result ≡ how_many kind lines.now }
{
    lines.iter().filter(|line| kind_of(*line).is(kind)).count()
}

/// The written bytes of all replicas that aren't broken. A `u64` may not hold them.
fn all_bytes(lines: &[ReportLine]) -> u128
    ensures { result ≡ all_bytes lines.now }
{
    lines.iter().map(|line| u128::from(bytes_of(line))).sum()
}
