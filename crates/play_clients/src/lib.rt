//! The clients of a play: each has the writer of a block, the writer's connection and its commands. Each event takes a
//! client that shows a world, on roads that show it, to one that shows the world after the event.
#![tactic(auto)]

mod clients;
mod courses;
mod hearing;
mod others;
mod owning;

pub use client_events::{ClientFault, Pipe, Said};
pub use clients::{Client, First, Owned};
pub use courses::Course;
pub use others::{clients_stay, hearing_keeps_others, own_steps_keep_others};
