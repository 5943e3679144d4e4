//! What the world of a channel is, and what one step of each of its actors does to it: reductions, accesses, deliveries, tasks, ports,
//! keys and ends.
#![tactic(auto)]

pub mod laws;
