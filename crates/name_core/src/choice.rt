//! The choice of a block recovery: which replicas it keeps, and at which length.

ghost use Rattle.std.specs.Prelude.{◌≡◌, map, find, option_map};
ghost use Rattle.name_core.specs.Choice.{is_candidate, is_finalized_candidate, is_kept, is_chosen, kept_infos};
ghost use Rattle.name_core.specs.Choice.{kept_lengths, lesser, least, other_length, finalized_choice, shortest, choice};

use crate::infos::{Info, Infos};
use hd_base::{MAX_MEMBERS, Members, NodeId, ReplicaState, Stamp};
use thiserror::Error;

/// What a block recovery has chosen.
#[derive(Debug, PartialEq, Eq, Drop)]
pub struct Chosen {
    /// The length to which the replicas are cut.
    pub length: u64,
    /// The nodes of the replicas that are kept, in the order of the infos.
    pub members: Members,
}

/// Why a block recovery chooses nothing.
#[derive(Clone, Copy, Debug, PartialEq, Eq, Error)]
pub enum ChooseFault {
    /// There is no candidate that is FINALIZED, RBW or RWR.
    #[error("there is no replica to keep")]
    Nothing,
    /// Two finalized candidates differ in length: the first one's, and the first other one.
    #[error("finalized replicas have the lengths {a} and {b}")]
    Unequal { a: u64, b: u64 },
}

/// Which candidates are kept.
#[derive(Clone, Copy, Debug)]
pub enum Kept {
    /// The finalized ones, and those being written that have this length.
    Finalized { length: u64 },
    /// Those being written.
    Rbw,
    /// Those waiting to be recovered.
    Rwr,
}

impl Info {
    /// Whether the replica is a candidate: its stamp isn't below the block's, and it has bytes.
    fn is_candidate(&self, block_stamp: Stamp) -> bool
        ensures { result ≡ is_candidate block_stamp self.now }
    {
        self.stamp >= block_stamp && self.length > 0
    }

    /// Whether the replica is a candidate that is finalized.
    fn is_finalized_candidate(&self, block_stamp: Stamp) -> bool
        ensures { result ≡ is_finalized_candidate block_stamp self.now }
    {
        self.is_candidate(block_stamp) && matches!(self.state, ReplicaState::Finalized)
    }

    /// Whether the replica's state is one of those that are kept.
    fn is_kept(&self, kept: Kept) -> bool
        ensures { result ≡ is_kept kept self.now }
    {
        match (self.state, kept) {
            (ReplicaState::Finalized, Kept::Finalized { .. }) => true,
            (ReplicaState::Rbw, Kept::Finalized { length }) => self.length == length,
            (ReplicaState::Rbw, Kept::Rbw) | (ReplicaState::Rwr, Kept::Rwr) => true,
            _ => false,
        }
    }

    /// Whether the replica is a candidate that is kept.
    fn is_chosen(&self, block_stamp: Stamp, kept: Kept) -> bool
        ensures { result ≡ is_chosen block_stamp kept self.now }
    {
        self.is_candidate(block_stamp) && self.is_kept(kept)
    }
}

/// Chooses the replicas that a block recovery keeps, and the length to which it cuts them. Candidates
/// are those whose stamp isn't below the block's and that have bytes. Where one is finalized, all
/// finalized ones have one length (else `Unequal`), and they are kept with those being written that
/// have that length. Else those being written are kept, or where there are none, those waiting to be
/// recovered, at their least length. `Nothing` where there is none of these either. Takes no memory.
#[tactic(auto, unfolding(crate::specs::Choice::choice))]
pub fn choose(block_stamp: Stamp, infos: &Infos) -> Result<Chosen, ChooseFault>
    ensures { result ≡ choice block_stamp infos.now }
{
    if let Some(chosen) = finalized_choice(block_stamp, infos)? {
        return Ok(chosen);
    }
    if let Some(chosen) = shortest(block_stamp, Kept::Rbw, infos) {
        return Ok(chosen);
    }
    shortest(block_stamp, Kept::Rwr, infos).ok_or(ChooseFault::Nothing)
}

/// The choice where a candidate is finalized, `None` where none is.
fn finalized_choice(block_stamp: Stamp, infos: &Infos) -> Result<Option<Chosen>, ChooseFault>
    ensures { result ≡ finalized_choice block_stamp infos.now }
{
    let Some(length) = finalized_length(block_stamp, infos) else {
        return Ok(None);
    };
    if let Some(other) = other_length(length, block_stamp, infos) {
        return Err(ChooseFault::Unequal {
            a: length,
            b: other,
        });
    }
    let members = kept_members(block_stamp, Kept::Finalized { length }, infos);
    Ok(Some(Chosen { length, members }))
}

/// The length of the first finalized candidate.
fn finalized_length(block_stamp: Stamp, infos: &Infos) -> Option<u64>
    ensures { result ≡ option_map (λ i. i.length) (find (is_finalized_candidate block_stamp) infos.now) }
{
    let first = infos
        .iter()
        .find(|info| info.is_finalized_candidate(block_stamp))?;
    Some(first.length)
}

/// The first length of a finalized candidate that isn't this one.
fn other_length(length: u64, block_stamp: Stamp, infos: &Infos) -> Option<u64>
    ensures { result ≡ option_map (λ i. i.length) (other_length length block_stamp infos.now) }
{
    let other = infos.iter().find(|info| info.is_finalized_candidate(block_stamp)
        && info.length != length)?;
    Some(other.length)
}

/// The candidates that are kept, at their least length; `None` where there are none.
fn shortest(block_stamp: Stamp, kept: Kept, infos: &Infos) -> Option<Chosen>
    ensures { result ≡ shortest block_stamp kept infos.now }
{
    let length = least_length(block_stamp, kept, infos)?;
    let members = kept_members(block_stamp, kept, infos);
    Some(Chosen { length, members })
}

/// The least length of the candidates that are kept, `None` where there are none.
fn least_length(block_stamp: Stamp, kept: Kept, infos: &Infos) -> Option<u64>
    ensures { result ≡ least (kept_lengths block_stamp kept infos.now) }
{
    let infos = infos.as_slice();
    let mut least = None;
    for info in infos {
        if info.is_chosen(block_stamp, kept) {
            least = Some(lesser(info.length, least));
        }
    }
    least
}

/// The lesser of two lengths, of which the other may be wanting.
fn lesser(length: u64, other: Option<u64>) -> u64
    ensures { result ≡ lesser length other }
{
    other.map_or(length, |other| length.min(other))
}

/// The nodes of the candidates that are kept, in the order of the infos.
fn kept_members(block_stamp: Stamp, kept: Kept, infos: &Infos) -> Members
    ensures { result ≡ map (λ i. i.node) (kept_infos block_stamp kept infos.now) }
{
    let infos = infos.as_slice();
    let mut nodes = [NodeId(0); MAX_MEMBERS];
    let mut count = 0;
    for info in infos {
        if info.is_chosen(block_stamp, kept) {
            nodes[count] = info.node;
            count += 1;
        }
    }
    Members::new(&nodes[..count]).unwrap()
}
