//! The primary of a block recovery.

ghost use Rattle.std.specs.Prelude.{◌≡◌, ◌<◌, length, map, IfOk, OnErr};
ghost use Rattle.recovery_core.specs.Primaries.{
  asked,
  heard_at,
  shuts_at,
  waits,
  begun_with,
  infos,
  updated_members,
  is_among,
  after_choice,
  all_after_choice,
  unchosen,
  choosing,
  committing,
  own_at,
  own_step,
  commits,
  updates_any,
  request_of,
  sync_call,
  office_refused,
  end_with,
};

use crate::standings::{Heard, Standing};
use hd_base::{BlockId, ByteList, Members, NodeId, Stamp};
use name_core::{
    Begun, ChooseFault, Chosen, Info, Infos, OfficeAnswer, OfficeCall, OfficeFault, choose,
};
use op_headers::{BlockRef, RecoveryKind, RecoveryOp, Targets};
use std::alloc::{AllocError, Global};
use std::marker::Model;

/// How far a primary is.
#[derive(Clone, Copy, Debug, PartialEq, Eq)]
pub enum Phase {
    /// The members were sent the INIT.
    Informing,
    /// The chosen members were sent the UPDATE to this length.
    Updating { length: u64 },
    /// Nothing more is sent to a member.
    Over,
}

/// How a block recovery ends.
#[derive(Debug, Drop, PartialEq, Eq)]
pub enum Recovered {
    /// The block has this length at these members, under the recovery's id.
    Done {
        id: Stamp,
        length: u64,
        members: Members,
    },
    /// There is no replica to keep.
    Nothing,
    /// Two finalized replicas differ in length.
    Unequal {
        a: u64,
        b: u64,
    },
    /// No chosen member was updated.
    NoneUpdated,
    /// The office refused.
    OfficeRefused(OfficeFault),
    /// No memory was left.
    Memory,
}

/// What a primary does in a step of its own.
#[derive(Debug, Drop, PartialEq, Eq)]
pub enum OwnStep {
    /// Nothing: answers are awaited, or the recovery is over.
    Waits,
    /// It sends the UPDATE to these members, to this length, and shuts the connections of the others.
    Updates(Chosen),
    /// It asks the office to commit this length at these members.
    Commits(Chosen),
    /// It shuts all connections; the recovery ends so.
    Ends(Recovered),
}

/// A primary that has sent each INIT.
#[derive(Debug, Drop)]
pub struct Primary {
    block: BlockId,
    begun: Begun,
    phase: Phase,
    members: Members,
    standings: Vec<Standing>,
}

impl Model for Primary {
    ghost use Rattle.recovery_core.specs.Primaries.{PrimaryState};

    ghost Value = { PrimaryState };

    ghost view = { λ p. record {
      block = p.block;
      begun = p.begun;
      phase = p.phase;
      members = p.members;
      standings = p.standings.items;
    } };
}

impl Primary {
    /// A primary that has dialled each of these members in order, and sent the INIT to those that answered.
    pub fn new(
        alloc: Global,
        block: BlockId,
        begun: Begun,
        members: &Members,
        answered: &[bool],
    ) -> Result<Primary, AllocError>
        requires { length answered.now ≡ length members.now }
        ensures { IfOk result (λ primary. primary ≡ begun_with block begun members.now answered.now) }
    {
        let standings = asked_standings(alloc, answered)?;
        Ok(Primary {
            block,
            begun,
            phase: Phase::Informing,
            members: members.duplicate(),
            standings,
        })
    }

    /// How it stands with the members, in their order.
    pub fn standings(&self) -> &[Standing]
        ensures { result.now ≡ self.now.standings }
    {
        self.standings.as_slice()
    }

    /// Takes this from the member at this place of the members. Whether its connection is shut then.
    pub fn hear(&mut self, at: usize, heard: &Heard) -> bool
        requires { at < length self.old.standings }
        ensures primary { self.new ≡ heard_at self.old at heard.now }
        ensures shuts { result ≡ shuts_at self.old at }
        ensures count { length self.new.standings ≡ length self.old.standings }
    {
        let standing = self.standings[at];
        self.standings[at] = standing.after(heard);
        standing.shuts_after()
    }

    /// Whether an answer of some member is awaited.
    pub fn waits(&self) -> bool
        ensures { result ≡ waits self.now.standings }
    {
        self.standings.iter().any(|standing| standing.is_awaited())
    }

    /// Whether its next own step is to ask the office to commit.
    pub fn commits(&self) -> bool
        ensures { result ≡ commits self.now }
    {
        match self.phase {
            Phase::Updating { .. } => !self.waits() && self.has_updated(),
            Phase::Informing | Phase::Over => false,
        }
    }

    /// Whether a member was updated.
    fn has_updated(&self) -> bool
        ensures { result ≡ updates_any self.now.members self.now.standings }
    {
        self.members
            .as_slice()
            .iter()
            .zip(self.standings.iter())
            .any(|(_, standing)| standing.is_updated())
    }

    /// A step of its own. Once every answer or end was taken, it chooses among what was told, and then commits. Want of
    /// memory changes nothing.
    pub fn own_step(&mut self, alloc: Global) -> Result<OwnStep, AllocError>
        ensures primary { IfOk result (λ _. self.new ≡ (own_step self.old).primary) }
        ensures does { IfOk result (λ does. does ≡ (own_step self.old).does) }
        ensures err { OnErr result (self.new ≡ self.old) }
    {
        if self.waits() {
            return Ok(OwnStep::Waits);
        }
        match self.phase {
            Phase::Informing => self.choose(alloc),
            Phase::Updating { length } => self.commit(alloc, length),
            Phase::Over => Ok(OwnStep::Waits),
        }
    }

    /// The choice among what was told.
    fn choose(&mut self, alloc: Global) -> Result<OwnStep, AllocError>
        ensures primary { IfOk result (λ _. self.new ≡ (own_at Phase.Informing self.old).primary) }
        ensures does { IfOk result (λ does. does ≡ (own_at Phase.Informing self.old).does) }
        ensures err { OnErr result (self.new ≡ self.old) }
    {
        let infos = self.infos(alloc)?;
        match choose(self.begun.committed, &infos) {
            Ok(chosen) => {
                self.standings = self.after_choice(alloc, &chosen.members)?;
                self.phase = Phase::Updating {
                    length: chosen.length,
                };
                Ok(OwnStep::Updates(chosen))
            }
            Err(fault) => {
                self.phase = Phase::Over;
                Ok(OwnStep::Ends(unchosen(fault)))
            }
        }
    }

    /// The commit of the members that were updated.
    fn commit(&mut self, alloc: Global, length: u64) -> Result<OwnStep, AllocError>
        ensures primary { IfOk result (λ _. self.new ≡ (own_at (Phase.Updating length) self.old).primary) }
        ensures does { IfOk result (λ does. does ≡ (own_at (Phase.Updating length) self.old).does) }
        ensures err { OnErr result (self.new ≡ self.old) }
    {
        let members = self.updated_members(alloc)?;
        self.phase = Phase::Over;
        if members.is_empty() {
            return Ok(OwnStep::Ends(Recovered::NoneUpdated));
        }
        Ok(OwnStep::Commits(Chosen { length, members }))
    }

    /// What the members told, in their order.
    fn infos(&self, alloc: Global) -> Result<Infos, AllocError>
        ensures { IfOk result (λ told. told ≡ infos self.now.members self.now.standings) }
    {
        let members = self.members.as_slice();
        let told = told_infos(alloc, members, &self.standings)?;
        Ok(Infos::new(&told).unwrap())
    }

    /// The members that were updated, in their order.
    fn updated_members(&self, alloc: Global) -> Result<Members, AllocError>
        ensures { IfOk result (λ updated. updated ≡ updated_members self.now.members self.now.standings) }
    {
        let members = self.members.as_slice();
        let updated = updated_nodes(alloc, members, &self.standings)?;
        Ok(Members::new(&updated).unwrap())
    }

    /// How it stands with the members once the chosen ones were sent the UPDATE.
    fn after_choice(&self, alloc: Global, chosen: &Members) -> Result<Vec<Standing>, AllocError>
        ensures { IfOk result (λ all. all.items ≡ all_after_choice chosen.now self.now.members self.now.standings) }
    {
        self.members
            .iter()
            .zip(self.standings.iter())
            .map(|(node, standing)| after_choice(chosen, *node, *standing))
            .collect(alloc)
    }

    /// The request of the INIT, or of the UPDATE to a length, that is sent to a member.
    pub fn request(
        &self,
        alloc: Global,
        kind: RecoveryKind,
        new_length: u64,
    ) -> Result<RecoveryOp, AllocError>
        ensures { IfOk result (λ op. op ≡ request_of self.now kind new_length) }
    {
        Ok(RecoveryOp {
            kind,
            block: BlockRef {
                pool: ByteList::from_slice(alloc, POOL)?,
                block: self.block,
                stamp: self.begun.committed,
                bytes: 0,
            },
            recovery: self.begun.id,
            new_length,
            targets: Targets::new(alloc),
        })
    }

    /// The call on the office that commits the members that were updated.
    pub fn sync_call(&self, updated: &Chosen) -> OfficeCall
        ensures { result ≡ sync_call self.now updated.now }
    {
        OfficeCall::CommitSync {
            block: self.block,
            id: self.begun.id,
            length: updated.length,
            members: updated.members.duplicate(),
        }
    }

    /// How the recovery ends, by the answer of the office to that call.
    pub fn end_with(&self, updated: Chosen, answer: Result<OfficeAnswer, OfficeFault>) -> Recovered
        ensures { result ≡ end_with self.now updated answer }
    {
        match answer {
            Ok(_) => Recovered::Done {
                id: self.begun.id,
                length: updated.length,
                members: updated.members,
            },
            Err(fault) => office_refused(fault),
        }
    }
}

/// The name of the one block pool.
const POOL: &[u8] = b"BP-1-127.0.0.1-1";

/// How a recovery ends that the office refuses, at its beginning too: the office's want of memory is the recovery's own.
pub fn office_refused(fault: OfficeFault) -> Recovered
    ensures { result ≡ office_refused fault }
{
    match fault {
        OfficeFault::Memory => Recovered::Memory,
        fault => Recovered::OfficeRefused(fault),
    }
}

/// How it stands with the members to which the INIT is sent, by which of the dials were answered.
fn asked_standings(alloc: Global, answered: &[bool]) -> Result<Vec<Standing>, AllocError>
    ensures { IfOk result (λ standings. standings.items ≡ map asked answered.now) }
{
    answered
        .iter()
        .map(|answered| Standing::asked(*answered))
        .collect(alloc)
}

/// What the members told, in their order.
fn told_infos(
    alloc: Global,
    members: &[NodeId],
    standings: &[Standing],
) -> Result<Vec<Info>, AllocError>
    ensures { IfOk result (λ told. told.items ≡ infos members.now standings.now) }
{
    members
        .iter()
        .zip(standings.iter())
        .filter_map(|(node, standing)| standing.info(*node))
        .collect(alloc)
}

/// The members that were updated, in their order.
fn updated_nodes(
    alloc: Global,
    members: &[NodeId],
    standings: &[Standing],
) -> Result<Vec<NodeId>, AllocError>
    ensures { IfOk result (λ updated. updated.items ≡ updated_members members.now standings.now) }
{
    members
        .iter()
        .zip(standings.iter())
        .filter_map(|(node, standing)| standing.updated_node(*node))
        .collect(alloc)
}

/// Whether the node is one of these: a chosen member is sent the UPDATE, and no other.
pub fn is_among(nodes: &Members, node: NodeId) -> bool
    ensures { result ≡ is_among nodes.now node }
{
    nodes.iter().any(|other| other.0 == node.0)
}

/// How it stands with a member once the chosen ones were sent the UPDATE.
fn after_choice(chosen: &Members, node: NodeId, standing: Standing) -> Standing
    ensures { result ≡ after_choice chosen.now node standing }
{
    if is_among(chosen, node) {
        standing.when_chosen()
    } else {
        Standing::Out
    }
}

/// Why nothing is chosen.
fn unchosen(fault: ChooseFault) -> Recovered
    ensures { result ≡ unchosen fault }
{
    match fault {
        ChooseFault::Nothing => Recovered::Nothing,
        ChooseFault::Unequal { a, b } => Recovered::Unequal { a, b },
    }
}
