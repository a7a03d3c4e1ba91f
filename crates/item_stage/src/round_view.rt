// The records of a round with their marks, where both stand.
ghost use Rattle.std.specs.Prelude.{◌≡◌, ◌<◌, ◌≤◌, Some, is_some, length, slice_get, true};
ghost use Rattle.std.specs.Option.{option_map};
ghost use Rattle.ip_codec.specs.Packet4.{fields4, packet4};
ghost use Rattle.ip_codec.specs.Seen.{seen};
ghost use Rattle.item_stage.specs.Items.{items_in};
ghost use Rattle.item_stage.specs.Marks.{entries_by};
ghost use Rattle.item_stage.specs.Packets.{packet_at};

use crate::joining::Parts;
use crate::marks::{Found, Marks};
use crate::packets::{bytes_known, parts_marked, parts_of};
use crate::reading::read_item_into;
use capture_io::{Form, Records};
use ip_codec::{ItemView, ReadPacket};
use std::marker::Model;

/// Records with their marks, where both stand, seen as the list of entries. Records behind the last mark have none.
#[derive(Drop)]
pub(crate) struct RoundView<'a> {
    form: Form,
    records: &'a Records,
    marks: &'a Marks,
}

impl<'a> Model for RoundView<'a> {
    ghost use Rattle.std.specs.Prelude.{◌≤◌, List, length};
    ghost use Rattle.item_stage.specs.Marks.{entries_by};
    ghost use Rattle.item_stage.specs.declared.entries.Entry.{Entry};

    ghost Value = { List Entry };

    ghost view = { λ s. entries_by s.form s.records.now s.marks.now.slots };

    ghost invariant = { λ s. length s.marks.now.slots ≤ length s.records.now };
}

impl<'a> RoundView<'a> {
    /// The entries of these records, in a capture of this form, by their marks.
    #[inline(always)]
    pub(crate) fn of(form: Form, records: &'a Records, marks: &'a Marks) -> Self
        requires { length marks.now.slots ≤ length records.now }
        ensures { result ≡ entries_by form records.now marks.now.slots }
    {
        RoundView {
            form,
            records,
            marks,
        }
    }

    /// How many there are.
    pub(crate) fn len(&self) -> usize
        ensures { result ≡ length self.now }
    {
        self.marks.len()
    }

    /// The item at this index, written where the caller keeps it.
    #[inline(always)]
    pub(crate) fn item_into(&self, index: usize, item: &mut ItemView<'a>)
        requires { index < length self.now }
        ensures { slice_get (items_in self.now) index ≡ Some (seen item.new) }
    {
        match self.marks.get(index) {
            Found::Alone => read_item_into(self.form, self.records.get(index).bytes, item),
            Found::Waits => *item = ItemView::Held,
            Found::Marked(mark) => mark.item_into(item),
        }
    }

    /// The first record's number of each datagram whose time is up with the record at this index, ascending.
    #[inline(always)]
    pub(crate) fn ended(&self, index: usize) -> &'a [u32]
        requires { index < length self.now }
        ensures { option_map (λ entry. entry.ended) (slice_get self.now index) ≡ Some result.now }
    {
        match self.marks.get(index) {
            Found::Alone => &[],
            Found::Waits => &[],
            Found::Marked(mark) => mark.ended.as_slice(),
        }
    }

    /// The IPv4 packet of the item at this index, which is known to have one. It is found without reading the item anew, and
    /// inlined: of its fields those alone are read that are asked for.
    #[inline(always)]
    pub(crate) fn packet(&self, index: usize) -> ReadPacket<'a>
        requires inside { index < length self.now }
        requires known { is_some (packet_at self.now index) ≡ true }
        ensures { packet_at self.now index ≡ Some (packet4 result.view) }
    {
        self.packet_parts(index).packet()
    }

    // Where it stands.
    #[inline(always)]
    fn packet_parts(&self, index: usize) -> Parts<'a>
        requires inside { index < length self.now }
        requires known { is_some (packet_at self.now index) ≡ true }
        ensures { packet_at self.now index ≡ Some (fields4 result.header.now result.payload.now) }
    {
        match self.marks.get(index) {
            Found::Alone => parts_of(bytes_known(self.form, self.records.get(index).bytes)),
            Found::Waits => unreachable!(),
            Found::Marked(mark) => parts_marked(mark),
        }
    }
}
