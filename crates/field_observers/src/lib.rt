//! The observers of fields: what each field of each node has, in order of registration.
#![tactic(auto)]

mod fields;
mod laws;
mod names;
mod observer_list;
mod observers;
mod target;

pub use laws::{a_registration_comes_last, dropped_registrations_are_of_their_field};
pub use observer_list::ObserverList;
pub use observers::Observers;
pub use target::{Registration, Target};
