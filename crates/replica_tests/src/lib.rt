//! Tests of replicas, their sums, their books and the files of these.
#![tactic(auto)]

#[cfg(test)]
mod books;
#[cfg(test)]
mod growth;
#[cfg(test)]
mod helpers;
#[cfg(test)]
mod packet_sums;
#[cfg(test)]
mod partial_chunks;
#[cfg(test)]
mod replicas;
#[cfg(test)]
mod stops;
