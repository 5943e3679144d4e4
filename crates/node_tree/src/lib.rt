//! The nodes of a run: their kinds, owners, fields, parents and children.
#![tactic(auto)]

mod answers;
mod children;
mod closed;
mod family;
mod field;
mod field_calls;
mod field_list;
mod held;
mod laws;
mod make;
mod making;
mod named;
mod names;
mod node;
mod nodes;
mod ownership_laws;
mod reach;
mod search;
mod soundness_laws;

pub use answers::{FieldLine, MakeFault, SetResult};
pub use laws::{fields_leave_families, numbers_stay, owners_stay};
pub use nodes::{MAX_NODES, Nodes};
pub use ownership_laws::{
    gifts_go_to_render, makings_leave_owners, nodes_stay_owned, reads_name_own_nodes,
};
pub use soundness_laws::{
    no_node_is_its_own_ancestor, nodes_stay_sound, reach_is_decided, two_gifts_are_one,
};
