//! Tests of `script_lang` and `storm_summary`: worked scripts and reports.
#![tactic(auto)]

#[cfg(test)]
mod reports;
#[cfg(test)]
mod scripts;
#[cfg(test)]
mod storms;
#[cfg(test)]
mod summaries;
