//! What told shelves tell.

ghost use Rattle.std.specs.Prelude.{◌≡◌, true};
ghost use Rattle.told_shelves.specs.Telling.{TheyTell};

use crate::told::ToldShelf;

/// Shelves of a kind that is told to tell its files do so, and so do their drawers.
pub fn told_shelves_tell<S: ToldShelf>()
    ensures { S.told ≡ true → TheyTell S.Shelf S.Drawer.Files }
{}
