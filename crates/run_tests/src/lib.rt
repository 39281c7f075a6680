//! Tests of `dn_run`: whole runs, and a source that gives a few bytes at a time.
#![tactic(auto)]

#[cfg(test)]
mod runs;
#[cfg(test)]
mod streams;
