//! Which messages that a member takes from above make its replica grow: their bytes are written to its data file.
#![tactic(auto)]
