//! What holds of every script.

ghost use Rattle.std.specs.Prelude.{◌≤◌};
ghost use Rattle.script_lang.specs.Fits.{most_bytes};
ghost use Rattle.script_lang.specs.Grammar.{EachScript, NamesItsNodes, OpensBeforeWrites, written_by, read_by, total_of};

/// A script begins with the number of its nodes, which is at most 16 and no more than the shelves,
/// and its seed; no later line names a node that isn't below that number.
pub fn script_names_its_nodes()
    ensures { EachScript NamesItsNodes }
{}

/// No line writes to a block, flushes or closes it behind a close, before a line opens it again.
pub fn script_opens_before_writes()
    ensures { EachScript (λ _ lines. OpensBeforeWrites lines) }
{}

/// The lines of a script write at most 33,554,432 bytes together, and read at most as many.
pub fn script_lengths_fit()
    ensures written { EachScript (λ _ lines. total_of written_by lines ≤ most_bytes) }
    ensures read { EachScript (λ _ lines. total_of read_by lines ≤ most_bytes) }
{}
