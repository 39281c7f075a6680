//! Laws of books. Each function has an empty body; its clauses say what holds of every book and every call.

ghost use Rattle.replica_files.specs.Laws.{CallsKeepAcked, HistoriesKeepAcked, CutsLeaveFronts, HistoriesDetermineFiles};

use hd_base::Files;

/// Bytes that are acked stay what they are, and stay acked, whatever call a book takes and however it ends, and whatever
/// entries a history gets; only the end of a block recovery may cut some of them off. It leaves a front of the bytes.
pub fn acked_bytes_stay<F: Files>()
    ensures calls { CallsKeepAcked F.Files }
    ensures histories { HistoriesKeepAcked }
    ensures cut { CutsLeaveFronts }
{}

/// A history determines the files: two books of one block with the same history, whatever files each is over, have
/// the same files, where the replica is neither broken nor absent.
pub fn histories_determine_files<F: Files, G: Files>()
    ensures { HistoriesDetermineFiles F.Files G.Files }
{}
