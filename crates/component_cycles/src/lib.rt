//! Components that are reached from themselves by bases and child kinds.
//!
//! Kinds stand by their places: the built-in kinds first, then the components in order. A search from one kind says exactly which kinds are reached
//! from it. So that good channels need no search at all, kinds are numbered first, such that none names a kind of a lower number: a kind that names
//! only kinds of higher numbers is not reached from itself.
//!
//! Source: SceneGraph XML Guide, "component", its attribute extends, and "children".
#![tactic(auto)]

mod cycles;
mod graph;
mod lists;
mod numbers;
mod parts;
mod reach;

pub use cycles::check_cycles;
