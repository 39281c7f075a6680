//! How books stand before a restart.

ghost use Rattle.node_restarts.specs.Laws.{NewBooksAreUnbroken, FailedBooksAreBroken};

use hd_base::Files;

/// The book of an absent replica without files isn't broken, and a restart finds nothing of it.
pub fn new_books_are_unbroken<F: Files>()
    ensures { NewBooksAreUnbroken F.Files }
{}

/// A book in whose event a call on files failed has broken in it, and its files are such as the restart rule allows.
pub fn failed_books_are_broken<F: Files>()
    ensures { FailedBooksAreBroken F.Files }
{}
