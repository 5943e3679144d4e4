//! What waits in the inbox.
ghost use Rattle.std.specs.Prelude.{◌≡◌};
ghost use Rattle.render_inbox.specs.Inbox.{is_post_of, number_of};

use chan_values::{Access, Key};

/// An entry of the inbox.
///
/// Source: SceneGraph, "Task node" and "Handling key events".
#[derive(Debug, Drop)]
pub enum Entry {
    /// A key with its number, and whether it is pressed; else it is released.
    Key(u64, Key, bool),
    /// The access of an actor, with the number of the actor's post.
    Access(u32, u64, Access),
    /// The end of an actor's task, with the number of the actor's post, and whether the task's function returned; else an
    /// error ended it.
    TaskEnd(u32, u64, bool),
}

impl Entry {
    /// Whether the entry is a post of the actor.
    pub fn is_post_of(&self, actor: u32) -> bool
        ensures { result ≡ is_post_of actor self.now }
    {
        match self {
            Entry::Key(_, _, _) => false,
            Entry::Access(poster, _, _) | Entry::TaskEnd(poster, _, _) => *poster == actor,
        }
    }

    /// The number of the key or of the post, counted from 1.
    pub fn number(&self) -> u64
        ensures { result ≡ number_of self.now }
    {
        match self {
            Entry::Key(number, _, _) | Entry::Access(_, number, _) | Entry::TaskEnd(_, number, _) =>
                *number,
        }
    }
}
