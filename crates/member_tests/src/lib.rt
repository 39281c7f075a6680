//! Tests of the running member of a pipeline.
#![tactic(auto)]

#[cfg(test)]
mod failing;
#[cfg(test)]
mod helpers;
#[cfg(test)]
mod nodes;
#[cfg(test)]
mod pieces;
#[cfg(test)]
mod receiving;
#[cfg(test)]
mod refusing;
#[cfg(test)]
mod responding;
