//! Where an `exit` leads.

/// Where an `exit` of each kind leads, and how many operands the loops that it leaves keep. Outside of loops it leads to the end of the
/// body.
#[derive(Clone, Copy, Debug, PartialEq, Eq)]
pub struct Exits {
    pub for_to: usize,
    pub for_keeps: usize,
    pub while_to: usize,
    pub while_keeps: usize,
}
