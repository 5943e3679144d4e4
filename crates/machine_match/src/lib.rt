//! A step of the machine is a reduction of the tree.
#![tactic(auto)]

pub mod laws;
