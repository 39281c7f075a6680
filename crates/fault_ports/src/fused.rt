//! Files that can be made to refuse the writes on data files.

ghost use Rattle.std.specs.Prelude.{◌≡◌, ◌+◌, [], ◌∷◌, None, OnOk, OnErr, IsErrOf};
ghost use Rattle.file_calls.specs.Plans.{HasRoomFor};
ghost use Rattle.file_calls.specs.CallCauses.{HasPlaceFor, CauseOf, RoomAfter};
ghost use Rattle.file_calls.specs.FileCalls.{meant};
ghost use Rattle.fault_ports.specs.RefusedWrites.{told_log, has_refused, MakesThrough, MakesPartThrough, IsSameThrough};
ghost use Rattle.fault_ports.specs.RefusalLaws.{log-makes_files, log-tells_refusals, refusals-logged};

use crate::refusals::Refusal;
use crate::stop_at::find_file;
use file_calls::{FileCall, make_call};
use hd_base::{FileError, FileName, Files};
use refusing_files::Refusing;
use std::alloc::{AllocError, Global};

/// Files of a drawer that can be made to refuse the writes on data files. While they do, a sync passes until a write was
/// refused, and every other call that isn't a mere read fails, keeps nothing and is counted. Their log is that of this
/// time.
#[derive(Debug, Drop)]
pub struct FusedDrawer<F> {
    inner: F,
    refusal: Option<Refusal>,
    faults: u64,
}

impl<F: Files> FusedDrawer<F> {
    /// Files that take writes.
    pub(crate) fn new(inner: F) -> FusedDrawer<F>
        ensures { result ≡ record { inner = inner; refusal = None; faults = 0 } }
    {
        FusedDrawer {
            inner,
            refusal: None,
            faults: 0,
        }
    }

    /// The files, and the count of the faults of their own.
    pub(crate) fn into_parts(self) -> (F, u64)
        ensures inner { result.0 ≡ self.inner }
        ensures faults { result.1 ≡ self.faults }
    {
        let FusedDrawer {
            inner,
            refusal: _,
            faults,
        } = self;
        (inner, faults)
    }

    /// Makes a call that isn't a mere read, unless files refuse writes and it isn't a sync that passes.
    fn change(&mut self, call: &FileCall) -> Result<(), FileError>
        requires room { HasRoomFor (F.room self.old.inner) (meant call.now) }
        requires place { HasPlaceFor (F.files self.old.inner) (meant call.now) }
        ensures ok { OnOk result (MakesThrough F.files self.old self.new (meant call.now ∷ [])) }
        ensures in_part { OnErr result (MakesPartThrough F.files self.old self.new (meant call.now)) }
        ensures absent { IsErrOf result FileError.Absent → IsSameThrough F.files self.old self.new }
        ensures room { RoomAfter (F.room self.old.inner) (F.room self.new.inner) (meant call.now) result }
        ensures cause { CauseOf (F.files self.old.inner) (meant call.now)
            (F.faults self.old.inner + self.old.faults) (F.faults self.new.inner + self.new.faults) result }
    {
        match &mut self.refusal {
            None => make_call(&mut self.inner, call),
            Some(refusal) => {
                find_file(&mut self.inner, call)?;
                refusal.refuse(call);
                self.faults = self.faults.saturating_add(1);
                Err(FileError::Failed)
            }
        }
    }
}

impl<F: Files> Files for FusedDrawer<F> {
    ghost files = { λ d. F.files d.inner };

    ghost log = { λ d. told_log d.refusal (F.files d.inner) };

    ghost room = { λ d. F.room d.inner };

    ghost faults = { λ d. F.faults d.inner + d.faults };

    ghost schedule = { λ _. None };

    fn names(&mut self, alloc: Global) -> Result<Vec<FileName>, FileError> {
        self.inner.names(alloc)
    }

    fn length(&mut self, name: &FileName) -> Result<u64, FileError> {
        self.inner.length(name)
    }

    fn read_at(
        &mut self,
        name: &FileName,
        place: u64,
        into: &mut [u8],
    ) -> Result<usize, FileError> {
        self.inner.read_at(name, place, into)
    }

    fn room(&mut self, alloc: Global, name: &FileName, len: u64) -> Result<(), FileError> {
        self.inner.room(alloc, name, len)
    }

    fn make(&mut self, name: &FileName) -> Result<(), FileError> {
        self.change(&FileCall::Make(name))
    }

    fn write_at(&mut self, name: &FileName, place: u64, piece: &[u8]) -> Result<(), FileError> {
        self.change(&FileCall::Write(name, place, piece))
    }

    fn cut(&mut self, name: &FileName, len: u64) -> Result<(), FileError> {
        self.change(&FileCall::Cut(name, len))
    }

    fn sync(&mut self, name: &FileName) -> Result<(), FileError> {
        if let Some(refusal) = &mut self.refusal {
            if refusal.takes_sync() {
                self.inner.sync(name)?;
                refusal.add_sync(name);
                return Ok(());
            }
        }
        self.change(&FileCall::Sync(name))
    }

    fn rename(&mut self, from: &FileName, to: &FileName) -> Result<(), FileError> {
        self.change(&FileCall::Rename(from, to))
    }

    fn remove(&mut self, name: &FileName) -> Result<(), FileError> {
        self.change(&FileCall::Remove(name))
    }

    ghost covers_files = { λ d. F.covers_files d.inner };

    ghost log_makes_files = { λ d. log-makes_files d.refusal (F.files d.inner) };
}

impl<F: Files> Refusing for FusedDrawer<F> {
    ghost refused = { λ d. has_refused d.refusal };

    fn refuse_writes(&mut self, alloc: Global) -> Result<(), AllocError> {
        self.refusal = Some(Refusal::new(alloc, self.faults)?);
        Ok(())
    }

    fn take_writes(&mut self) -> bool {
        match self.refusal.take() {
            Some(refusal) if refusal.has_refused() => {
                self.faults = refusal.before();
                true
            }
            _ => false,
        }
    }

    ghost tells_refusals = { λ d. log-tells_refusals d.refusal (F.files d.inner) };

    ghost logs_refusals = { λ d. refusals-logged d.refusal (F.files d.inner) };
}
