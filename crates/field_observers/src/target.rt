//! What is told of a change of a field.
ghost use Rattle.std.specs.Prelude.{◌≡◌, IfOk};

use chan_values::{NoMemory, Text, copy_text};
use std::alloc::Global;

/// What is told of a change of a field.
///
/// Source: SceneGraph, "ifSGNodeField", observeField().
#[derive(Debug, Drop)]
pub enum Target {
    /// The function of a component that registered it: the number of its home, and the function's name as given.
    Function { home: u32, name: Text },
    /// A message port, by its number.
    Port(u32),
}

/// An observer of a field. One that is fixed came with the making of its node (`onChange`) and stays for good.
#[derive(Debug, Drop)]
pub struct Registration {
    pub target: Target,
    pub fixed: bool,
}

/// A target that equals the argument.
pub(crate) fn copy_target(alloc: Global, target: &Target) -> Result<Target, NoMemory>
    ensures { IfOk result (λ copy. copy ≡ target.now) }
{
    match target {
        Target::Function { home, name } => {
            let name = copy_text(alloc, name)?;
            Ok(Target::Function { home: *home, name })
        }
        Target::Port(port) => Ok(Target::Port(*port)),
    }
}
