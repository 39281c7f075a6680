//! Tests of `restart_scan`.
#![tactic(auto)]

#[cfg(test)]
mod helpers;
#[cfg(test)]
mod layouts;
#[cfg(test)]
mod lives;
#[cfg(test)]
mod losses;
#[cfg(test)]
mod scans;
#[cfg(test)]
mod stopping;
