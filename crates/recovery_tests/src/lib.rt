//! Tests of block recovery over files, links and roads in memory.
#![tactic(auto)]

#[cfg(test)]
mod playing;
#[cfg(test)]
mod ready;
#[cfg(test)]
mod recovering;
#[cfg(test)]
mod roads;
#[cfg(test)]
mod serving;
#[cfg(test)]
mod stepping;
