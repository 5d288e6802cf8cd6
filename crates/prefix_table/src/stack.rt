// A stack of names of nodes.
ghost use Rattle.std.specs.Prelude.{◌≡◌, ◌<◌, ◌++◌, ◌∷◌, [], length, IsSome, MatchOption};
ghost use Rattle.prefix_table.specs.Limits.{most_nodes};
ghost use Rattle.prefix_table.specs.Stacked.{given};

use crate::MOST_NODES;
use std::marker::Model;

/// A stack of at most `MOST_NODES` names. Takes no memory.
#[derive(Drop)]
pub(crate) struct Stack {
    names: [u32; MOST_NODES as usize],
    len: usize,
}

impl Model for Stack {
    ghost use Rattle.std.specs.Prelude.{◌≤◌, ℕ, List, take};
    ghost use Rattle.prefix_table.specs.Limits.{most_nodes};

    ghost Value = { List ℕ };

    ghost view = { λ stack. take stack.len stack.names };

    ghost invariant = { λ stack. stack.len ≤ most_nodes };
}

impl Stack {
    /// A stack without names.
    pub(crate) fn new() -> Stack
        ensures { result ≡ [] }
    {
        Stack {
            names: [0; MOST_NODES as usize],
            len: 0,
        }
    }

    /// Puts a name, if there is one, behind the others.
    pub(crate) fn push(&mut self, name: Option<u32>)
        requires { IsSome name → length self.old < most_nodes }
        ensures { self.new ≡ self.old ++ given name }
    {
        if let Some(name) = name {
            self.names[self.len] = name;
            self.len += 1;
        }
    }

    /// Takes the last name out, and returns it, or None where there is none.
    pub(crate) fn pop(&mut self) -> Option<u32>
        ensures { MatchOption result ((self.old ≡ []) × (self.new ≡ []))
            (λ name. self.old ≡ self.new ++ name ∷ []) }
    {
        if self.len == 0 {
            return None;
        }
        self.len -= 1;
        Some(self.names[self.len])
    }
}
