//! Tests of `run_words`: worked calls, and calls that break a rule.
#![tactic(auto)]

#[cfg(test)]
mod calls;
