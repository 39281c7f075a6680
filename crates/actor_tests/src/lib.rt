//! Tests of the name office, of a writer's packets, and of the messages of refusals.
#![tactic(auto)]

#[cfg(test)]
mod offices;
#[cfg(test)]
mod refusals;
#[cfg(test)]
mod streams;
