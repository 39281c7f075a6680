//! Tests of `node_opening`, `node_stops` and `node_starts`: nodes over memory.
#![tactic(auto)]

#[cfg(test)]
mod opening;
#[cfg(test)]
mod starting;
#[cfg(test)]
mod stopping;
