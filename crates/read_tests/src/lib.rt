//! Tests of reads at the visible length, over files and roads in memory, by themselves and as events of plays.
#![tactic(auto)]

#[cfg(test)]
mod back;
#[cfg(test)]
mod helpers;
#[cfg(test)]
mod playing;
#[cfg(test)]
mod reads;
