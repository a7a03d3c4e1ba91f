// Loads, and what became of them.
use aftr_base::WordList;
use binding_file::FileRefused;
use std::marker::Model;
use swap_core::{Plan, Window};

/// What a load's file says.
#[derive(Debug, Drop)]
pub enum Loaded {
    /// The compiled words of its table.
    Words(WordList),
    /// It is no table.
    Refused(FileRefused),
}

/// A load of a run.
#[derive(Debug, Drop)]
pub struct Load {
    /// When its table comes into force.
    pub window: Window,
    pub loaded: Loaded,
}

/// What became of a load.
#[derive(Clone, Copy, Debug)]
pub enum Slot {
    /// It is the table of this version, counted from 1; the first table has version 0.
    Version(u32),
    Refused(FileRefused),
}

/// What became of each load, in order.
#[derive(Debug, Drop)]
pub struct Slots {
    list: Vec<Slot>,
}

impl Model for Slots {
    ghost use Rattle.std.specs.Prelude.{List};
    ghost use Rattle.reload_plan.specs.declared.loads.Slot.{Slot};

    ghost Value = { List Slot };

    ghost view = { λ t. t.list.items };
}

impl Slots {
    ghost use Rattle.std.specs.Prelude.{◌≡◌};

    /// Takes the list as it is, with its allocator.
    pub fn of(list: Vec<Slot>) -> Self
        ensures { result ≡ list.items }
    {
        Slots { list }
    }

    pub fn as_slice(&self) -> &[Slot]
        ensures { result.now ≡ self.now }
    {
        &self.list
    }
}

/// The plan of a run, and what became of its loads.
#[derive(Debug, Drop)]
pub struct Made {
    pub plan: Plan,
    pub slots: Slots,
}
