//! Tests of `fault_ports`: files that lose and stop, writes that fail, and connections that are cut.
#![tactic(auto)]

#[cfg(test)]
mod cuts;
#[cfg(test)]
mod files;
