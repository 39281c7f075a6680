//! Whether the files of books hold their replicas, though they may have broken.

ghost use Rattle.std.specs.Prelude.{◌≡◌, true, false};
ghost use Rattle.hd_base.specs.Faults.{FaultsIncreased};
ghost use Rattle.node_opening.specs.Closing.{faults_of};
ghost use Rattle.node_restarts.specs.Wholeness.{AllHoldWhole};

use hd_base::Files;
use replica_files::ReplicaBook;

/// Whether the files of each book hold its replica, as it was before it broke where it did.
pub fn have_whole_files<F: Files>(books: &[ReplicaBook<F>]) -> bool
    ensures whole { result ≡ true → AllHoldWhole F.Files books.now }
    ensures cause { result ≡ false → FaultsIncreased 0 (faults_of F.Files books.now) }
{
    for book in books {
        if !book.has_whole_files() {
            return false;
        }
    }
    true
}
