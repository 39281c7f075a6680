//! The laws of the primary.

ghost use Rattle.recovery_core.specs.Laws.{OnlyChosenAreUpdated, CommitsTheChosen};

/// After the choice only the answers of chosen members are awaited, and none counts as updated yet: so only chosen members
/// that answer SUCCESS to their UPDATE are committed.
pub fn only_chosen_are_updated()
    ensures { OnlyChosenAreUpdated }
{}

/// Whatever is heard between the choice and the commit, the length that is committed is the chosen one, and each member that
/// is committed was chosen.
pub fn the_chosen_are_committed()
    ensures { CommitsTheChosen }
{}
