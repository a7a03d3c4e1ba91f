// The items of a round.
ghost use Rattle.std.specs.Prelude.{◌≡◌, ◌<◌, ◌≤◌, ℕ, List, Some, is_some, length, slice_get, true};
ghost use Rattle.std.specs.Option.{option_map};
ghost use Rattle.ip_codec.specs.Packet4.{packet4};
ghost use Rattle.ip_codec.specs.Seen.{seen};
ghost use Rattle.ip_codec.specs.declared.items.Item.{Item as Whole};
ghost use Rattle.item_stage.specs.Lent.{marks_in};
ghost use Rattle.item_stage.specs.Marks.{entries_by};
ghost use Rattle.item_stage.specs.Packets.{packet_at};

use crate::marks::Marks;
use crate::round_view::RoundView;
use capture_io::{Form, Records};
use ip_codec::{ItemView, ReadPacket};
use std::marker::Model;

/// The items of a round's records. Asking for one changes nothing, so many threads can ask at once, each for any of them.
pub trait RoundItems {
    /// The items, one a record, in the order of the records.
    ghost items: { Self → List Whole };

    /// How many there are.
    fn len(&self) -> usize
        ensures { result ≡ length (items self.now) };

    /// One of them, written where the caller keeps it: an item has many words, and its place serves for all records. The first
    /// has the index 0.
    fn item_into<'a>(&'a self, index: usize, item: &mut ItemView<'a>)
        requires { index < length (items self.now) }
        ensures { slice_get (items self.now) index ≡ Some (seen item.new) };

    /// One of them as a value.
    fn item(&self, index: usize) -> ItemView<'_>
        requires { index < length (items self.now) }
        ensures { slice_get (items self.now) index ≡ Some (seen result) }
    {
        let mut item = ItemView::Held;
        self.item_into(index, &mut item);
        item
    }
}

/// The marks of a round's records: those that a stage answered, or those of a staged round.
#[derive(Drop)]
pub(crate) enum RoundMarks<'a> {
    Own(Marks),
    Lent(&'a Marks),
}

impl<'a> RoundMarks<'a> {
    #[inline(always)]
    fn marks(&self) -> &Marks
        ensures { result.now ≡ marks_in self.now }
    {
        match self {
            RoundMarks::Own(marks) => marks,
            RoundMarks::Lent(marks) => marks,
        }
    }
}

/// The entries of the records that a stage was given, seen as their list. Items are views of the records' bytes, and of datagrams that
/// were put together.
#[derive(Drop)]
pub struct Items<'a> {
    form: Form,
    records: &'a Records,
    // What came of the records of which a lane took a fragment, one for each record.
    marks: RoundMarks<'a>,
}

impl<'a> Model for Items<'a> {
    ghost use Rattle.std.specs.Prelude.{◌≤◌, List, length};
    ghost use Rattle.item_stage.specs.Lent.{marks_in};
    ghost use Rattle.item_stage.specs.Marks.{entries_by};
    ghost use Rattle.item_stage.specs.declared.entries.Entry.{Entry};

    ghost Value = { List Entry };

    ghost view = { λ s. entries_by s.form s.records.now (marks_in s.marks).slots };

    ghost invariant = { λ s. length (marks_in s.marks).slots ≤ length s.records.now };
}

impl<'a> Items<'a> {
    /// The entries of these records, in a capture of this form, by their marks.
    pub(crate) fn of(form: Form, records: &'a Records, marks: RoundMarks<'a>) -> Self
        requires { length (marks_in marks).slots ≤ length records.now }
        ensures { result ≡ entries_by form records.now (marks_in marks.entry).slots }
    {
        Items {
            form,
            records,
            marks,
        }
    }

    /// The memory of the marks. That of a staged round stays there.
    pub(crate) fn into_room(self) -> Option<Marks> {
        match self.marks {
            RoundMarks::Own(marks) => Some(marks),
            RoundMarks::Lent(_) => None,
        }
    }

    // The records and their marks.
    #[inline(always)]
    fn view(&self) -> RoundView<'_>
        ensures { result ≡ self.now }
    {
        RoundView::of(self.form, self.records, self.marks.marks())
    }

    /// The first record's number of each datagram whose time is up with the record at this index, ascending.
    pub fn ended(&self, index: usize) -> &[u32]
        requires { index < length self.now }
        ensures { option_map (λ entry. entry.ended) (slice_get self.now index) ≡ Some result.now }
    {
        self.view().ended(index)
    }

    /// The IPv4 packet of the item at this index, which is known to have one. It is found without reading the item anew, and
    /// inlined: of its fields those alone are read that are asked for.
    #[inline(always)]
    pub fn packet(&self, index: usize) -> ReadPacket<'_>
        requires inside { index < length self.now }
        requires known { is_some (packet_at self.now index) ≡ true }
        ensures { packet_at self.now index ≡ Some (packet4 result.view) }
    {
        self.view().packet(index)
    }
}

impl<'a> RoundItems for Items<'a> {
    ghost use Rattle.item_stage.specs.Items.{items_in};

    ghost items = { items_in };

    fn len(&self) -> usize {
        self.view().len()
    }

    fn item_into<'b>(&'b self, index: usize, item: &mut ItemView<'b>) {
        self.view().item_into(index, item)
    }
}
