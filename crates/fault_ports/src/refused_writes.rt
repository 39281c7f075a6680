//! Writes on data files that were refused.

ghost use Rattle.std.specs.Prelude.{◌≡◌, true};
ghost use Rattle.hd_base.specs.Blocks.{is_data};

use hd_base::FileName;

/// A write on a data file that was refused: where its bytes were to stand.
#[derive(Debug, Drop)]
pub struct RefusedWrite {
    pub name: FileName,
    pub place: u64,
    ghost on_data: { is_data name ≡ true },
}
