//! Lines that are appended to a report.

ghost use Rattle.std.specs.Prelude.{◌≡◌, ◌++◌, [], ◌∷◌, OnOk};

use script_lang::ReportLine;
use std::alloc::AllocError;

/// Appends a line.
pub(crate) fn append(out: &mut Vec<ReportLine>, line: ReportLine) -> Result<(), AllocError>
    ensures { OnOk result (out.new.items ≡ out.old.items ++ line ∷ []) }
{
    out.push(line)?;
    Ok(())
}
