//! Whether shelves tell their files.

ghost use Rattle.std.specs.Prelude.{◌≡◌, Bool, true, false, refl, IsSome};
ghost use Rattle.told_shelves.specs.Telling.{never};

use fault_ports::Fused;
use hd_base::Shelf;
use mem_ports::MemShelf;
use real_ports::FolderShelf;
use std::fs::{File, Files as System};

/// Shelves of a kind of which it is known whether they tell their files.
pub trait ToldShelf: Shelf {
    // Whether all shelves of this kind, and their drawers, tell their files.
    ghost told: { Bool };

    /// Whether all shelves of this kind, and their drawers, tell their files.
    fn tells() -> bool
        ensures { result ≡ told };

    // Where so, each shelf tells its files.
    ghost shelves_tell: { told ≡ true → (x : Self) → IsSome (Self.files x) };

    // Where so, each drawer tells its files.
    ghost drawers_tell: { told ≡ true → (x : Self.Drawer) → IsSome (Self.Drawer.files x) };
}

impl ToldShelf for MemShelf {
    ghost told = { true };

    fn tells() -> bool {
        true
    }

    ghost shelves_tell = { λ _ _. refl };

    ghost drawers_tell = { λ _ _. refl };
}

/// What the files of a folder hold isn't told.
impl<R: System<File = File> + AllocGlobal + Clone + Drop + Send> ToldShelf for FolderShelf<R> {
    ghost told = { false };

    fn tells() -> bool {
        false
    }

    ghost shelves_tell = { λ told _. never told };

    ghost drawers_tell = { λ told _. never told };
}

impl<S: ToldShelf> ToldShelf for Fused<S> {
    ghost told = { S.told };

    fn tells() -> bool {
        S::tells()
    }

    ghost shelves_tell = { λ told x. S.shelves_tell told x.inner };

    ghost drawers_tell = { λ told x. S.drawers_tell told x.inner };
}
