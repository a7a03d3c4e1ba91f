// Those who take steps: the actors, and the desk, which alone replaces a table.
ghost use Rattle.std.specs.Prelude.{◌≡◌, IfOk, replicate};
ghost use Rattle.swap_core.specs.States.{newcomer};

use aftr_base::OutOfMemory;
use std::alloc::Global;
use std::marker::Model;

/// Where an actor is on its way to a table.
#[derive(Clone, Copy, Debug, PartialEq, Eq)]
pub enum ActorState {
    Idle,
    /// It has read this version.
    Looked(u32),
    /// It has claimed this area.
    Asks(u32),
    /// It holds, in this area, this version.
    Holds(u32, u32),
}

impl ActorState {
    ghost use Rattle.std.specs.Prelude.{ℕ, IfSome, IfNone};
    ghost use Rattle.swap_core.specs.Sound.{HasClaimed};

    /// The area that it has claimed.
    pub(crate) fn claimed(self) -> Option<u32>
        ensures some { IfSome result (λ area. HasClaimed area self) }
        ensures none { IfNone result ((area : ℕ) → HasClaimed area self → ⊥) }
    {
        match self {
            ActorState::Asks(area) | ActorState::Holds(area, _) => Some(area),
            ActorState::Idle | ActorState::Looked(_) => None,
        }
    }
}

/// Where the desk is on its way to the next version.
#[derive(Clone, Copy, Debug, PartialEq, Eq)]
pub enum DeskState {
    Resting,
    /// The next table's window is reached.
    Ready,
    /// So many words of the next table are written.
    Writing(u32),
}

/// The numbers that an actor has drawn, in order, each with the version that it held.
#[derive(Debug, Drop)]
pub struct Draws {
    list: Vec<(u32, u32)>,
}

impl Model for Draws {
    ghost use Rattle.std.specs.Prelude.{ℕ, List};

    ghost Value = { List (ℕ × ℕ) };

    ghost view = { λ d. d.list.items };
}

impl Draws {
    ghost use Rattle.std.specs.Prelude.{◌≡◌, List, [], ◌∷◌, ◌++◌, is_ok, if◌then◌else◌};

    pub(crate) fn none(alloc: Global) -> Draws
        ensures { result ≡ [] }
    {
        Draws {
            list: Vec::new(alloc),
        }
    }

    pub(crate) fn push(&mut self, number: u32, version: u32) -> Result<(), OutOfMemory>
        ensures { self.new ≡ (if is_ok result then self.old ++ (number, version) ∷ [] else self.old) }
    {
        self.list.push((number, version))?;
        Ok(())
    }
}

/// One who claims tables and draws numbers.
#[derive(Debug, Drop)]
pub struct Actor {
    pub state: ActorState,
    pub draws: Draws,
}

/// So many actors that are idle and have drawn nothing.
pub(crate) fn newcomers(alloc: Global, count: u32) -> Result<Vec<Actor>, OutOfMemory>
    ensures { IfOk result (λ actors. actors.items ≡ replicate count newcomer) }
{
    let mut actors = Vec::new(alloc);
    'actors: for _ in 0..count {
        actors.push(Actor {
            state: ActorState::Idle,
            draws: Draws::none(alloc),
        })?;
    }
    Ok(actors)
}
