// A round that owns its records.
ghost use Rattle.std.specs.Prelude.{◌≡◌, ◌<◌, ◌≤◌, [], Some, is_some, length, slice_get, true};
ghost use Rattle.std.specs.Option.{option_map};
ghost use Rattle.ip_codec.specs.Packet4.{packet4};
ghost use Rattle.item_stage.specs.Marks.{entries_by};
ghost use Rattle.item_stage.specs.Packets.{packet_at};

use crate::marks::Marks;
use crate::round_view::RoundView;
use crate::rounds::{Items, RoundItems, RoundMarks};
use capture_io::{Form, Records};
use ip_codec::{ItemView, ReadPacket};
use std::alloc::Global;
use std::marker::Model;
use std::mem::replace;

/// Records, and what a stage made of each. All of it is its own, so it may go from thread to thread, and its memory serves round
/// after round. Contracts see the records and their entries. Records that no stage has taken have no entries yet.
#[derive(Drop)]
pub struct StagedRound {
    // That of the capture.
    form: Form,
    records: Records,
    marks: Marks,
}

impl Model for StagedRound {
    ghost use Rattle.std.specs.Prelude.{◌≤◌, length};
    ghost use Rattle.item_stage.specs.Marks.{entries_by};
    ghost use Rattle.item_stage.specs.Stages.{StagedRecords};

    ghost Value = { StagedRecords };

    ghost view = { λ s. record { records = s.records; entries = entries_by s.form s.records s.marks.slots } };

    ghost invariant = { λ s. length s.marks.slots ≤ length s.records };
}

impl StagedRound {
    /// A round with no records, for a capture of this form.
    pub fn new(alloc: Global, form: Form) -> StagedRound
        ensures records { result.records ≡ [] }
        ensures entries { result.entries ≡ [] }
    {
        StagedRound {
            form,
            records: Records::new(alloc),
            marks: Marks::new(alloc),
        }
    }

    /// The records.
    pub fn records(&self) -> &Records
        ensures { result.now ≡ self.now.records }
    {
        &self.records
    }

    /// Takes the records out, with their room: a reader fills it again.
    pub fn take_records(&mut self, alloc: Global) -> Records
        ensures taken { result ≡ self.old.records }
        ensures records { self.new.records ≡ [] }
        ensures entries { self.new.entries ≡ [] }
    {
        self.change_records(Records::new(alloc))
    }

    /// Puts records in, which no stage has taken yet.
    pub fn put_records(&mut self, records: Records)
        ensures records { self.new.records ≡ records }
        ensures entries { self.new.entries ≡ [] }
    {
        self.change_records(records);
    }

    // Puts records in, answers those that were there, and lets their marks go.
    #[tactic(auto, using(crate::proofs::MarkLemmas::entries_bare))]
    fn change_records(&mut self, records: Records) -> Records
        ensures before { result ≡ self.old.records }
        ensures records { self.new.records ≡ records }
        ensures entries { self.new.entries ≡ [] }
    {
        self.marks.clear();
        replace(&mut self.records, records)
    }

    /// The entries.
    pub fn items(&self) -> Items<'_>
        ensures { result ≡ self.now.entries }
    {
        Items::of(self.form, &self.records, RoundMarks::Lent(&self.marks))
    }

    /// The first record's number of each datagram whose time is up with the record at this index, ascending.
    pub fn ended(&self, index: usize) -> &[u32]
        requires { index < length self.now.entries }
        ensures { option_map (λ entry. entry.ended) (slice_get self.now.entries index) ≡ Some result.now }
    {
        self.view().ended(index)
    }

    /// The IPv4 packet of the item at this index, which is known to have one. It is found without reading the item anew, and
    /// inlined: of its fields those alone are read that are asked for.
    #[inline(always)]
    pub fn packet(&self, index: usize) -> ReadPacket<'_>
        requires inside { index < length self.now.entries }
        requires known { is_some (packet_at self.now.entries index) ≡ true }
        ensures { packet_at self.now.entries index ≡ Some (packet4 result.view) }
    {
        self.view().packet(index)
    }

    // The records and their marks.
    #[inline(always)]
    fn view(&self) -> RoundView<'_>
        ensures { result ≡ self.now.entries }
    {
        RoundView::of(self.form, &self.records, &self.marks)
    }

    /// Takes the memory of the marks out.
    pub(crate) fn take_room(&mut self, alloc: Global) -> Marks
        ensures records { self.new.records ≡ self.old.records }
        ensures entries { self.new.entries ≡ [] }
    {
        replace(&mut self.marks, Marks::new(alloc))
    }

    /// Puts the marks of the records in, which are those of a capture of this form.
    pub(crate) fn put_marks(&mut self, form: Form, marks: Marks)
        requires { length marks.slots ≤ length self.old.records }
        ensures records { self.new.records ≡ self.old.records }
        ensures entries { self.new.entries ≡ entries_by form self.old.records marks.slots }
    {
        self.form = form;
        self.marks = marks;
    }
}

impl RoundItems for StagedRound {
    ghost use Rattle.item_stage.specs.Items.{items_in};

    ghost items = { λ s. items_in s.entries };

    fn len(&self) -> usize {
        self.view().len()
    }

    fn item_into<'b>(&'b self, index: usize, item: &mut ItemView<'b>) {
        self.view().item_into(index, item)
    }
}
