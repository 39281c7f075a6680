//! Tests of numbers and names, sums, metadata files, files and roads in memory, and files in folders.
#![tactic(auto)]

#[cfg(test)]
mod ends;
#[cfg(test)]
mod folders;
#[cfg(test)]
mod headers;
#[cfg(test)]
mod memory;
#[cfg(test)]
mod numbers;
#[cfg(test)]
mod sums;
