//! A block's pair is read.

ghost use Rattle.std.specs.Prelude.{◌≡◌, ℕ, List, Some, IfOk, IfSome, IsSome};
ghost use Rattle.hd_base.specs.FileMaps.{FileMap, AreNamesOf};
ghost use Rattle.replica_calls.specs.Performed.{KeepsAll};
ghost use Rattle.replica_files.specs.Finding.{FailsFor};
ghost use Rattle.restart_scan.specs.Pairs.{Finds, pair_names, without_temporary};
ghost use Rattle.restart_scan.specs.Kept.{AreThere};
ghost use Rattle.restart_scan.specs.Reading.{IsRuleOf, ReadsFiles, ReadsBlock};

use crate::pairs::{PairPlaces, pair_among};
use crate::pieces::kept_in;
use hd_base::{BlockId, FileError, FileName, Files, SumRule};
use meta_file::read_header;
use std::alloc::Global;

/// How many bytes the header of a metadata file has.
const HEADER_LEN: usize = 7;

/// What was read of a pair.
#[derive(Clone, Copy)]
pub(crate) struct ReadPair {
    pub(crate) places: PairPlaces,
    pub(crate) rule: SumRule,
    /// How many bytes the data file has.
    pub(crate) data_len: u64,
    /// How many bytes the metadata file has.
    pub(crate) meta_len: u64,
    /// How many bytes of the data file are kept.
    pub(crate) kept: u64,
}

/// The rule that a metadata file's header says, if it is a good one.
fn read_rule<F: Files>(drawer: &mut F, name: &FileName) -> Result<Option<SumRule>, FileError>
    requires { IfSome (F.files drawer.old) (λ m. IsSome (m name.now)) }
    ensures value { IfOk result (λ found. (m : FileMap) (meta : List ℕ) → F.files drawer.old ≡ Some m
        → m name.now ≡ Some meta → Finds (IsRuleOf meta) found) }
    ensures kept { KeepsAll F.Files drawer.old drawer.new }
    ensures cause { FailsFor (F.faults drawer.old) (F.faults drawer.new) result }
{
    let mut front = [0; HEADER_LEN];
    let count = drawer.read_at(name, 0, &mut front)?;
    match read_header(&front[..count]) {
        Ok(rule) => Ok(Some(rule)),
        Err(_) => Ok(None),
    }
}

/// Reads the two files at these places, if the metadata file has a good header.
fn read_files<F: Files>(
    alloc: Global,
    drawer: &mut F,
    block: BlockId,
    places: &PairPlaces,
) -> Result<Option<ReadPair>, FileError>
    requires { AreThere (F.files drawer.old) (pair_names block.0 places.now) }
    ensures value { IfOk result (λ found. (m : FileMap) (bytes meta : List ℕ) → F.files drawer.old ≡ Some m
        → m (pair_names block.0 places.now).«data» ≡ Some bytes → m (pair_names block.0 places.now).meta ≡ Some meta
        → ReadsFiles places.now bytes meta found) }
    ensures kept { KeepsAll F.Files drawer.old drawer.new }
    ensures cause { FailsFor (F.faults drawer.old) (F.faults drawer.new) result }
{
    let names = places.names(block);
    let Some(rule) = read_rule(drawer, &names.meta)? else {
        return Ok(None);
    };
    let data_len = drawer.length(&names.data)?;
    let meta_len = drawer.length(&names.meta)?;
    let kept = kept_in(alloc, drawer, &names, rule, data_len)?;
    Ok(Some(ReadPair {
        places: *places,
        rule,
        data_len,
        meta_len,
        kept,
    }))
}

/// Reads a block's pair, if there is one among its files apart from those in tmp, whose names these are.
pub(crate) fn read_pair<F: Files>(
    alloc: Global,
    drawer: &mut F,
    block: BlockId,
    names: &[FileName],
) -> Result<Option<ReadPair>, FileError>
    requires { IfSome (F.files drawer.old) (λ m. AreNamesOf (without_temporary m) names.now) }
    ensures value { IfOk result (λ found. (m : FileMap) → F.files drawer.old ≡ Some m → ReadsBlock block m found) }
    ensures kept { KeepsAll F.Files drawer.old drawer.new }
    ensures cause { FailsFor (F.faults drawer.old) (F.faults drawer.new) result }
{
    let Some(places) = pair_among(block, names) else {
        return Ok(None);
    };
    read_files(alloc, drawer, block, &places)
}
