//! Tests of the messages' codecs, and of messages from a stream in any pieces.
#![tactic(auto)]

#[cfg(test)]
mod acks;
#[cfg(test)]
mod feeds;
#[cfg(test)]
mod fields;
#[cfg(test)]
mod packets;
#[cfg(test)]
mod requests;
