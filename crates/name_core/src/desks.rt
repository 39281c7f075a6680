//! Desks, at which writers and primaries call the office.

ghost use Rattle.std.specs.Prelude.{◌≡◌, IfOk, Option, option_map, None, Some};
ghost use Rattle.name_core.specs.Offices.{OfficeState};
ghost use Rattle.name_core.specs.Desks.{FitsCall, AnswersAsOffice, office_after_answer};

use crate::book::OfficeBook;
use crate::calls::{OfficeAnswer, OfficeCall};
use crate::faults::OfficeFault;
use std::sync::{Arc, Mutex, Wait};

/// Where writers and primaries call the office.
pub trait Desk: Drop {
    /// The office behind the desk, `None` where it isn't observable.
    ghost office: { Self → Option OfficeState };

    /// One call on the office. An answer has the form of its call, and an append is answered a length
    /// of at most `MAX_APPEND_LENGTH`. `Memory` may come at any time.
    fn ask(&mut self, call: &OfficeCall) -> Result<OfficeAnswer, OfficeFault>
        ensures fits { IfOk result (FitsCall call.now) }
        ensures answer { AnswersAsOffice (office self.old) call.now result }
        ensures office { office self.new ≡ option_map (office_after_answer call.now result) (office self.old) };
}

impl Desk for OfficeBook {
    ghost office = { λ book. Some book.office };

    fn ask(&mut self, call: &OfficeCall) -> Result<OfficeAnswer, OfficeFault> {
        self.take(call.duplicate())
    }
}

/// A desk over an office that others call too. It holds the lock for the one call alone.
#[derive(Drop)]
pub struct SharedDesk<H: Wait> {
    /// What waits for the lock.
    pub handle: H,
    /// The book, behind the lock that all of its desks share.
    pub book: Arc<Mutex<OfficeBook>>,
}

impl<H: Wait> SharedDesk<H> {
    /// A desk over the book behind this lock.
    pub fn new(handle: H, book: Arc<Mutex<OfficeBook>>) -> SharedDesk<H>
        ensures handle { result.handle ≡ handle }
        ensures book { result.book ≡ book }
    {
        SharedDesk { handle, book }
    }
}

impl<H: Wait + Drop> Desk for SharedDesk<H> {
    ghost office = { λ _. None };

    fn ask(&mut self, call: &OfficeCall) -> Result<OfficeAnswer, OfficeFault> {
        self.book.lock(&self.handle).take(call.duplicate())
    }
}
