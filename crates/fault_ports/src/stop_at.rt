//! Files that stop at a call.

ghost use Rattle.std.specs.Prelude.{◌≡◌, ◌+◌, None, OnOk, OnErr, IsErrOf};
ghost use Rattle.hd_base.specs.FileCauses.{FileCause};
ghost use Rattle.hd_base.specs.FileMaps.{KeepsRoom};
ghost use Rattle.hd_base.specs.Calls.{MakesCalls, MakesPartOf, IsUnchanged};
ghost use Rattle.file_calls.specs.Plans.{HasRoomFor};
ghost use Rattle.file_calls.specs.CallCauses.{HasPlaceFor, CauseOf};
ghost use Rattle.file_calls.specs.FileCalls.{meant};
ghost use Rattle.fault_ports.specs.Kept.{kept_of, half_of, RoomAfterStop};

use file_calls::{FileCall, make_call};
use hd_base::{FileError, FileName, Files};
use std::alloc::Global;

/// What is kept of the call at which files stop.
#[derive(Clone, Copy, Debug, PartialEq, Eq)]
pub enum Keep {
    /// Nothing.
    Nothing,
    /// The first half of a write, and nothing of another call.
    Half,
    /// All of it.
    All,
}

/// Which turn a call has.
#[derive(Clone, Copy, Debug, PartialEq, Eq)]
enum Turn {
    /// It passes.
    Passes,
    /// The files stop at it.
    Stops,
    /// They have stopped before.
    Late,
}

/// Files that pass so many calls that aren't mere reads, stop at the next one, of which they keep
/// what they were told to keep, and fail at every call from then on.
#[derive(Debug, Drop)]
pub struct StopAt<F> {
    inner: F,
    left: u64,
    keep: Keep,
    stopped: bool,
    faults: u64,
}

impl<F: Files> StopAt<F> {
    ghost use Rattle.std.specs.Prelude.{◌≡◌, ◌+◌, ◌<◌, [], ◌∷◌, true, false, OnOk, OnErr, IfErr, IsErr, IsErrOf};
    ghost use Rattle.hd_base.specs.Faults.{HasCause};
    ghost use Rattle.hd_base.specs.Calls.{MakesCalls, MakesPartOf, IsUnchanged};
    ghost use Rattle.file_calls.specs.Plans.{HasRoomFor};
    ghost use Rattle.file_calls.specs.CallCauses.{HasPlaceFor, CauseOf, RoomAfter};
    ghost use Rattle.file_calls.specs.FileCalls.{meant};
    ghost use Rattle.fault_ports.specs.Kept.{kept_of, IsPassed, KeepsAsked};
    ghost use Rattle.fault_ports.specs.Stops.{files_in, calls_left, keep_of, has_stopped, own_faults, TakesTurn};

    /// Files that pass so many calls and stop at the next.
    pub fn new(inner: F, calls: u64, keep: Keep) -> StopAt<F>
        ensures files { files_in result ≡ inner }
        ensures calls { calls_left result ≡ calls }
        ensures keep { keep_of result ≡ keep }
        ensures going { has_stopped result ≡ false }
        ensures sound { own_faults result ≡ 0 }
    {
        StopAt {
            inner,
            left: calls,
            keep,
            stopped: false,
            faults: 0,
        }
    }

    /// The files, as the stop left them.
    pub fn into_inner(self) -> F
        ensures { result ≡ files_in self }
    {
        let StopAt { inner, .. } = self;
        inner
    }

    /// Which turn the next call has.
    fn turn(&mut self) -> Turn
        ensures { TakesTurn self.old self.new result }
    {
        if self.stopped {
            self.faults = self.faults.saturating_add(1);
            return Turn::Late;
        }
        if self.left == 0 {
            self.stopped = true;
            self.faults = self.faults.saturating_add(1);
            return Turn::Stops;
        }
        self.left -= 1;
        Turn::Passes
    }

    /// Fails where the files have stopped.
    fn reach(&mut self) -> Result<(), FileError>
        ensures ok { OnOk result (self.new ≡ self.old) }
        ensures inner { self.new.inner ≡ self.old.inner }
        ensures failed { IfErr result (λ e. e ≡ FileError.Failed) }
        ensures cause { HasCause self.old.faults self.new.faults result }
    {
        if self.stopped {
            self.faults = self.faults.saturating_add(1);
            return Err(FileError::Failed);
        }
        Ok(())
    }

    /// Makes a call that isn't a mere read: passes it, stops at it or fails.
    pub fn change(&mut self, call: &FileCall) -> Result<(), FileError>
        requires room { HasRoomFor (F.room (files_in self.old)) (meant call.now) }
        requires place { HasPlaceFor (F.files (files_in self.old)) (meant call.now) }
        ensures ok { OnOk result (MakesCalls
            (F.files (files_in self.old)) (F.files (files_in self.new))
            (F.log (files_in self.old)) (F.log (files_in self.new))
            (meant call.now ∷ [])) }
        ensures in_part { OnErr result (MakesPartOf
            (F.files (files_in self.old)) (F.files (files_in self.new))
            (F.log (files_in self.old)) (F.log (files_in self.new))
            (meant call.now)) }
        ensures absent { IsErrOf result FileError.Absent → IsUnchanged
            (F.files (files_in self.old)) (F.files (files_in self.new))
            (F.log (files_in self.old)) (F.log (files_in self.new)) }
        ensures room { RoomAfter (F.room (files_in self.old)) (F.room (files_in self.new)) (meant call.now) result }
        ensures cause { CauseOf (F.files (files_in self.old)) (meant call.now)
            (F.faults (files_in self.old) + own_faults self.old)
            (F.faults (files_in self.new) + own_faults self.new) result }
        ensures passes { has_stopped self.old ≡ false → 0 < calls_left self.old → IsPassed
            (calls_left self.old) (own_faults self.old)
            (calls_left self.new) (has_stopped self.new) (own_faults self.new) }
        ensures stop { has_stopped self.old ≡ false → calls_left self.old ≡ 0 → has_stopped self.new ≡ true }
        ensures fails { has_stopped self.old ≡ false → calls_left self.old ≡ 0 → IsErr result }
        ensures fails_late { has_stopped self.old ≡ true → IsErr result }
        ensures exact { has_stopped self.old ≡ false → calls_left self.old ≡ 0 → IsErrOf result FileError.Failed →
            KeepsAsked (F.files (files_in self.old)) (F.files (files_in self.new))
            (F.log (files_in self.old)) (F.log (files_in self.new))
            (kept_of (keep_of self.old) (meant call.now))
            (F.faults (files_in self.old)) (F.faults (files_in self.new)) }
        ensures late { has_stopped self.old ≡ true → IsUnchanged
            (F.files (files_in self.old)) (F.files (files_in self.new))
            (F.log (files_in self.old)) (F.log (files_in self.new)) }
    {
        match self.turn() {
            Turn::Passes => make_call(&mut self.inner, call),
            Turn::Stops => match keep_part(&mut self.inner, self.keep, call) {
                Ok(()) => Err(FileError::Failed),
                Err(error) => Err(error),
            },
            Turn::Late => match find_file(&mut self.inner, call) {
                Ok(()) => Err(FileError::Failed),
                Err(error) => Err(error),
            },
        }
    }
}

/// Does of a call what is to be kept.
fn keep_part<F: Files>(inner: &mut F, keep: Keep, call: &FileCall) -> Result<(), FileError>
    requires room { HasRoomFor (F.room inner.old) (meant call.now) }
    requires place { HasPlaceFor (F.files inner.old) (meant call.now) }
    ensures kept { OnOk result (MakesCalls
        (F.files inner.old) (F.files inner.new) (F.log inner.old) (F.log inner.new) (kept_of keep (meant call.now))) }
    ensures in_part { OnErr result (MakesPartOf
        (F.files inner.old) (F.files inner.new) (F.log inner.old) (F.log inner.new) (meant call.now)) }
    ensures absent { IsErrOf result FileError.Absent → IsUnchanged
        (F.files inner.old) (F.files inner.new) (F.log inner.old) (F.log inner.new) }
    ensures room { RoomAfterStop (F.room inner.old) (F.room inner.new) (meant call.now) }
    ensures cause { CauseOf (F.files inner.old) (meant call.now) (F.faults inner.old) (F.faults inner.new) result }
{
    match keep {
        Keep::Nothing => find_file(inner, call),
        Keep::Half => keep_half(inner, call),
        Keep::All => make_call(inner, call),
    }
}

/// Does the first half of a write, and nothing of another call.
fn keep_half<F: Files>(inner: &mut F, call: &FileCall) -> Result<(), FileError>
    requires room { HasRoomFor (F.room inner.old) (meant call.now) }
    requires place { HasPlaceFor (F.files inner.old) (meant call.now) }
    ensures kept { OnOk result (MakesCalls
        (F.files inner.old) (F.files inner.new) (F.log inner.old) (F.log inner.new) (half_of (meant call.now))) }
    ensures in_part { OnErr result (MakesPartOf
        (F.files inner.old) (F.files inner.new) (F.log inner.old) (F.log inner.new) (meant call.now)) }
    ensures absent { IsErrOf result FileError.Absent → IsUnchanged
        (F.files inner.old) (F.files inner.new) (F.log inner.old) (F.log inner.new) }
    ensures room { KeepsRoom (F.room inner.old) (F.room inner.new) }
    ensures cause { CauseOf (F.files inner.old) (meant call.now) (F.faults inner.old) (F.faults inner.new) result }
{
    match call {
        FileCall::Write(name, place, bytes) => {
            inner.write_at(name, *place, &bytes[..bytes.len() / 2])
        }
        FileCall::Make(_) => Ok(()),
        FileCall::Cut(name, _) => has_file(inner, name),
        FileCall::Sync(name) => has_file(inner, name),
        FileCall::Rename(from, _) => has_file(inner, from),
        FileCall::Remove(name) => has_file(inner, name),
    }
}

/// Looks for the file of a call, and does nothing else.
pub fn find_file<F: Files>(inner: &mut F, call: &FileCall) -> Result<(), FileError>
    ensures same { IsUnchanged (F.files inner.old) (F.files inner.new) (F.log inner.old) (F.log inner.new) }
    ensures room { KeepsRoom (F.room inner.old) (F.room inner.new) }
    ensures cause { CauseOf (F.files inner.old) (meant call.now) (F.faults inner.old) (F.faults inner.new) result }
{
    match call {
        FileCall::Make(_) => Ok(()),
        FileCall::Write(name, _, _) => has_file(inner, name),
        FileCall::Cut(name, _) => has_file(inner, name),
        FileCall::Sync(name) => has_file(inner, name),
        FileCall::Rename(name, _) => has_file(inner, name),
        FileCall::Remove(name) => has_file(inner, name),
    }
}

/// Looks for a file.
fn has_file<F: Files>(inner: &mut F, name: &FileName) -> Result<(), FileError>
    ensures same { IsUnchanged (F.files inner.old) (F.files inner.new) (F.log inner.old) (F.log inner.new) }
    ensures room { KeepsRoom (F.room inner.old) (F.room inner.new) }
    ensures cause { FileCause (F.files inner.old) name.now (F.faults inner.old) (F.faults inner.new) result }
{
    match inner.length(name) {
        Ok(_) => Ok(()),
        Err(error) => Err(error),
    }
}

impl<F: Files> Files for StopAt<F> {
    ghost files = { λ s. F.files s.inner };

    ghost log = { λ s. F.log s.inner };

    ghost room = { λ s. F.room s.inner };

    ghost faults = { λ s. F.faults s.inner + s.faults };

    ghost schedule = { λ _. None };

    fn names(&mut self, alloc: Global) -> Result<Vec<FileName>, FileError> {
        self.reach()?;
        self.inner.names(alloc)
    }

    fn length(&mut self, name: &FileName) -> Result<u64, FileError> {
        let length = self.inner.length(name)?;
        self.reach()?;
        Ok(length)
    }

    fn read_at(
        &mut self,
        name: &FileName,
        place: u64,
        into: &mut [u8],
    ) -> Result<usize, FileError> {
        let count = self.inner.read_at(name, place, into)?;
        self.reach()?;
        Ok(count)
    }

    fn room(&mut self, alloc: Global, name: &FileName, len: u64) -> Result<(), FileError> {
        self.reach()?;
        self.inner.room(alloc, name, len)
    }

    fn make(&mut self, name: &FileName) -> Result<(), FileError> {
        self.change(&FileCall::Make(name))
    }

    fn write_at(&mut self, name: &FileName, place: u64, piece: &[u8]) -> Result<(), FileError> {
        self.change(&FileCall::Write(name, place, piece))
    }

    fn cut(&mut self, name: &FileName, len: u64) -> Result<(), FileError> {
        self.change(&FileCall::Cut(name, len))
    }

    fn sync(&mut self, name: &FileName) -> Result<(), FileError> {
        self.change(&FileCall::Sync(name))
    }

    fn rename(&mut self, from: &FileName, to: &FileName) -> Result<(), FileError> {
        self.change(&FileCall::Rename(from, to))
    }

    fn remove(&mut self, name: &FileName) -> Result<(), FileError> {
        self.change(&FileCall::Remove(name))
    }

    ghost covers_files = { λ s. F.covers_files s.inner };

    ghost log_makes_files = { λ s. F.log_makes_files s.inner };
}
