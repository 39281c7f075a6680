//! The office with the history of its calls.

ghost use Rattle.std.specs.Prelude.{◌≡◌, IfOk};
ghost use Rattle.hd_base.specs.Results.{Gives};
ghost use Rattle.name_core.specs.Steps.{reply};
ghost use Rattle.name_core.specs.Offices.{committed_in, create_case, append_case, new_stamp_case, commit_case};
ghost use Rattle.name_core.specs.Offices.{complete_case, begin_case, sync_case, answer_to};
ghost use Rattle.name_core.specs.Books.{new_book, IsReplay, is_entry, book_after};
ghost use Rattle.name_core.specs.Desks.{FitsCall};

use crate::calls::{Begun, OfficeAnswer, OfficeCall, Reopened};
use crate::faults::OfficeFault;
use crate::office::Office;
use hd_base::{BlockId, Members, Stamp};
use std::alloc::{AllocError, Global};
use std::marker::Model;

/// An office with the history of its calls: the office is the replay of that history. A call takes
/// room for its entry first. So each call may answer `Memory`, which changes nothing and is no entry;
/// any other refusal is one.
#[derive(Debug, Drop)]
pub struct OfficeBook {
    office: Office,
    history: Vec<OfficeCall>,
}

impl Model for OfficeBook {
    ghost use Rattle.std.specs.Prelude.{◌≡◌};
    ghost use Rattle.name_core.specs.Offices.{new_office, run};
    ghost use Rattle.name_core.specs.Books.{BookState};

    ghost Value = { BookState };

    ghost view = { λ b. record { office = b.office; history = b.history.items } };

    ghost invariant = { λ b. b.office ≡ run new_office b.history.items };
}

impl OfficeBook {
    /// An office that knows no block, with an empty history.
    pub fn new(alloc: Global) -> Result<OfficeBook, AllocError>
        ensures { IfOk result (λ book. book ≡ new_book) }
    {
        Ok(OfficeBook {
            office: Office::new(alloc)?,
            history: Vec::new(alloc),
        })
    }

    /// The calls that the office took, in their order.
    pub fn history(&self) -> &[OfficeCall]
        ensures history { result.now ≡ self.now.history }
        ensures replay { IsReplay self.now }
    {
        self.history.as_slice()
    }

    /// The committed stamp of the block, 0 where it isn't known. It is no entry.
    pub fn committed(&self, block: BlockId) -> Stamp
        ensures { result ≡ committed_in self.now.office block }
    {
        self.office.committed(block)
    }

    /// `Office::create`, with an entry.
    pub fn create(&mut self, block: BlockId, members: &Members) -> Result<Stamp, OfficeFault>
        ensures answer { Gives OfficeFault.Memory result (reply (create_case self.old.office block members.now)) }
        ensures book { self.new ≡ book_after self.old (OfficeCall.Create block members.now) result }
        ensures replay { IsReplay self.new }
    {
        let call = OfficeCall::Create {
            block,
            members: members.duplicate(),
        };
        match self.take(call)? {
            OfficeAnswer::Stamp(stamp) => Ok(stamp),
            _ => unreachable!(),
        }
    }

    /// `Office::append`, with an entry.
    pub fn append(&mut self, block: BlockId) -> Result<Reopened, OfficeFault>
        ensures answer { Gives OfficeFault.Memory result (reply (append_case self.old.office block)) }
        ensures book { self.new ≡ book_after self.old (OfficeCall.Append block) result }
        ensures replay { IsReplay self.new }
    {
        match self.take(OfficeCall::Append { block })? {
            OfficeAnswer::Reopened(reopened) => Ok(reopened),
            _ => unreachable!(),
        }
    }

    /// `Office::new_stamp`, with an entry.
    pub fn new_stamp(&mut self, block: BlockId) -> Result<Stamp, OfficeFault>
        ensures answer { Gives OfficeFault.Memory result (reply (new_stamp_case self.old.office block)) }
        ensures book { self.new ≡ book_after self.old (OfficeCall.NewStamp block) result }
        ensures replay { IsReplay self.new }
    {
        match self.take(OfficeCall::NewStamp { block })? {
            OfficeAnswer::Stamp(stamp) => Ok(stamp),
            _ => unreachable!(),
        }
    }

    /// `Office::commit`, with an entry.
    pub fn commit(
        &mut self,
        block: BlockId,
        stamp: Stamp,
        members: &Members,
    ) -> Result<(), OfficeFault>
        ensures answer { Gives OfficeFault.Memory result (reply (commit_case self.old.office block stamp members.now)) }
        ensures book { self.new ≡ book_after self.old (OfficeCall.Commit block stamp members.now) result }
        ensures replay { IsReplay self.new }
    {
        let members = members.duplicate();
        self.take(OfficeCall::Commit {
            block,
            stamp,
            members,
        })?;
        Ok(())
    }

    /// `Office::complete`, with an entry.
    pub fn complete(&mut self, block: BlockId, stamp: Stamp, length: u64) -> Result<(), OfficeFault>
        ensures answer { Gives OfficeFault.Memory result (reply (complete_case self.old.office block stamp length)) }
        ensures book { self.new ≡ book_after self.old (OfficeCall.Complete block stamp length) result }
        ensures replay { IsReplay self.new }
    {
        self.take(OfficeCall::Complete {
            block,
            stamp,
            length,
        })?;
        Ok(())
    }

    /// `Office::begin_recovery`, with an entry.
    pub fn begin_recovery(&mut self, block: BlockId) -> Result<Begun, OfficeFault>
        ensures answer { Gives OfficeFault.Memory result (reply (begin_case self.old.office block)) }
        ensures book { self.new ≡ book_after self.old (OfficeCall.BeginRecovery block) result }
        ensures replay { IsReplay self.new }
    {
        match self.take(OfficeCall::BeginRecovery { block })? {
            OfficeAnswer::Begun(begun) => Ok(begun),
            _ => unreachable!(),
        }
    }

    /// `Office::commit_sync`, with an entry.
    pub fn commit_sync(
        &mut self,
        block: BlockId,
        id: Stamp,
        length: u64,
        members: &Members,
    ) -> Result<(), OfficeFault>
        ensures answer { Gives OfficeFault.Memory result
            (reply (sync_case self.old.office block id length members.now)) }
        ensures book { self.new ≡
            book_after self.old (OfficeCall.CommitSync block id length members.now) result }
        ensures replay { IsReplay self.new }
    {
        let members = members.duplicate();
        self.take(OfficeCall::CommitSync {
            block,
            id,
            length,
            members,
        })?;
        Ok(())
    }

    /// Takes a call as a value.
    pub fn take(&mut self, call: OfficeCall) -> Result<OfficeAnswer, OfficeFault>
        ensures answer { Gives OfficeFault.Memory result (answer_to self.old.office call) }
        ensures book { self.new ≡ book_after self.old call result }
        ensures fits { IfOk result (FitsCall call) }
        ensures replay { IsReplay self.new }
    {
        self.history.reserve(1)?;
        let answer = self.office.take(&call);
        if is_entry(&answer) {
            self.history.push_reserved(call);
        }
        answer
    }
}

/// Whether a call that was answered so is an entry: any but one for want of memory.
fn is_entry(answer: &Result<OfficeAnswer, OfficeFault>) -> bool
    ensures { result ≡ is_entry answer.now }
{
    !matches!(answer, Err(OfficeFault::Memory))
}
