//! What the code of an actor does, step by step: its frames, its operands and its slots, with the values of the store.
#![tactic(auto)]

pub mod laws;
