// What is kept of the records of which a lane took a fragment.
ghost use Rattle.std.specs.Prelude.{◌≡◌, ◌<◌, ◌≤◌, ◌^◌, [], ◌∷◌, ◌++◌, IfOk, None, Some, length, slice_get, true};
ghost use Rattle.ip_codec.specs.Seen.{seen};
ghost use Rattle.item_stage.specs.Alone.{item_inside};
ghost use Rattle.item_stage.specs.Marks.{found_mark, outcome_item, waiting};
ghost use Rattle.item_stage.specs.Shown.{shown_inside};

use crate::alone::{Inside, behind_fragment};
use crate::joining::Datagram;
use aftr_base::{Bytes, Numbers, OutOfMemory};
use ip_codec::{ItemView, Outer, Rule};
use std::alloc::Global;
use std::marker::Model;

/// What became of such a record.
#[derive(Debug, Drop)]
pub(crate) enum Outcome {
    /// Its fragment waits.
    Held,
    /// Its fragment was refused.
    Bad(Rule),
    /// A datagram from the IPv4 network is whole with it.
    Down(Datagram),
    /// A datagram in the tunnel is whole with it.
    Up { outer: Outer, packet: Datagram },
    /// A tunnel packet is whole with it: what stands behind the Fragment header, of which the first header has the number
    /// `next`. No fragment of an IPv4 datagram does.
    Carries { outer: Outer, next: u8, body: Bytes },
}

/// What is kept of such a record.
#[derive(Debug, Drop)]
pub(crate) struct Mark {
    /// The first record's number of each datagram whose time was up with it, ascending.
    pub(crate) ended: Numbers,
    pub(crate) outcome: Outcome,
}

impl Mark {
    /// The item, written where the caller keeps it. Few records have a mark.
    #[cold]
    #[inline(never)]
    pub(crate) fn item_into<'a>(&'a self, item: &mut ItemView<'a>)
        ensures { seen item.new ≡ outcome_item self.now.outcome }
    {
        *item = self.outcome.item();
    }

    /// Whether its fragment waits, and nothing ended with it.
    pub(crate) fn only_waits(&self) -> bool
        ensures { result ≡ true → self.now ≡ waiting }
    {
        match &self.outcome {
            Outcome::Held => self.ended.as_slice().is_empty(),
            Outcome::Bad(_) => false,
            Outcome::Down(_) => false,
            Outcome::Up { .. } => false,
            Outcome::Carries { .. } => false,
        }
    }
}

/// What is known of a record at once.
#[derive(Clone, Copy, Debug)]
pub(crate) enum Slot {
    /// It is what it is by itself.
    Alone,
    /// Its fragment waits, and nothing ended with it.
    Waits,
    /// Its mark stands at this place of the list.
    At(u32),
}

/// What is kept of a record, where it stands.
#[derive(Clone, Copy)]
pub(crate) enum Found<'a> {
    Alone,
    Waits,
    Marked(&'a Mark),
}

/// The marks of a round's records, in their order: seen as a mark for each record that has one, and for how many records there is
/// room. A fragment that waits has a slot, and takes no memory beside it.
#[derive(Debug, Drop)]
pub(crate) struct Marks {
    slots: Vec<Slot>,
    list: Vec<Mark>,
}

impl Model for Marks {
    ghost use Rattle.std.specs.Prelude.{◌≤◌, length, map, vec_capacity};
    ghost use Rattle.std.specs.List.{All};
    ghost use Rattle.item_stage.specs.Marks.{IsPlaced, Kept, slot_mark};

    ghost Value = { Kept };

    ghost view = { λ m. record { slots = map (slot_mark m.list.items) m.slots.items; room = vec_capacity m.slots } };

    ghost invariant = { λ m. All (IsPlaced m.list.items) m.slots.items × (length m.list.items ≤ length m.slots.items) };
}

impl Marks {
    /// No marks, and no room yet.
    pub(crate) fn new(alloc: Global) -> Self
        ensures { result.slots ≡ [] }
    {
        Marks {
            slots: Vec::new(alloc),
            list: Vec::new(alloc),
        }
    }

    /// Lets the marks go, and keeps their room.
    pub(crate) fn clear(&mut self)
        ensures { self.new.slots ≡ [] }
    {
        self.slots.clear();
        self.list.clear();
    }

    /// Lets the marks go, and takes room for those of `count` records.
    pub(crate) fn restart(&mut self, count: usize) -> Result<(), OutOfMemory>
        ensures none { IfOk result (λ _. self.new.slots ≡ []) }
        ensures room { IfOk result (λ _. count ≤ self.new.room) }
    {
        self.slots.clear();
        self.list.clear();
        self.slots.reserve(count)?;
        Ok(())
    }

    /// The next record has none.
    pub(crate) fn push_alone(&mut self)
        requires { length self.old.slots < self.old.room }
        ensures slots { self.new.slots ≡ self.old.slots ++ None ∷ [] }
        ensures room { self.new.room ≡ self.old.room }
    {
        self.slots.push_reserved(Slot::Alone);
    }

    /// The next record has this one.
    pub(crate) fn push(&mut self, mark: Mark) -> Result<(), OutOfMemory>
        requires room { length self.old.slots < self.old.room }
        requires few { length self.old.slots < 2 ^ 31 }
        ensures slots { IfOk result (λ _. self.new.slots ≡ self.old.slots ++ Some mark ∷ []) }
        ensures room { IfOk result (λ _. self.new.room ≡ self.old.room) }
    {
        if mark.only_waits() {
            self.slots.push_reserved(Slot::Waits);
            return Ok(());
        }
        let place = self.list.len() as u32;
        self.list.push(mark)?;
        self.slots.push_reserved(Slot::At(place));
        Ok(())
    }

    /// How many records they are of.
    pub(crate) fn len(&self) -> usize
        ensures { result ≡ length self.now.slots }
    {
        self.slots.len()
    }

    /// What is kept of the record at this index.
    #[inline(always)]
    pub(crate) fn get(&self, index: usize) -> Found<'_>
        requires { index < length self.now.slots }
        ensures { slice_get self.now.slots index ≡ Some (found_mark result) }
    {
        match self.slots[index] {
            Slot::Alone => Found::Alone,
            Slot::Waits => Found::Waits,
            Slot::At(place) => Found::Marked(&self.list[place as usize]),
        }
    }
}

impl Outcome {
    /// The item.
    pub(crate) fn item(&self) -> ItemView<'_>
        ensures { seen result ≡ outcome_item self.now }
    {
        match self {
            Outcome::Held => ItemView::Held,
            Outcome::Bad(why) => ItemView::Bad(*why),
            Outcome::Down(datagram) => ItemView::Down {
                packet: datagram.parts().packet(),
            },
            Outcome::Up { outer, packet } => ItemView::Up {
                outer: *outer,
                inner: packet.parts().packet(),
            },
            Outcome::Carries { outer, next, body } => {
                view_inside(behind_fragment(*outer, *next, body.as_slice()))
            }
        }
    }
}

/// The item of what an IPv6 packet carries, where each fragment waits.
pub(crate) fn view_inside<'a>(inside: Inside<'a>) -> ItemView<'a>
    ensures { seen result ≡ item_inside (shown_inside inside.entry) }
{
    match inside {
        Inside::Settled(item) => item,
        Inside::Fragment { .. } => ItemView::Held,
    }
}
