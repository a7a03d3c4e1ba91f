// The item of one record.
ghost use Rattle.std.specs.Prelude.{◌≡◌, true};
ghost use Rattle.ip_codec.specs.Packet4.{ip4_of, is_plain};
ghost use Rattle.ip_codec.specs.Packet6.{ip6_of};
ghost use Rattle.ip_codec.specs.Seen.{seen};
ghost use Rattle.item_stage.specs.Alone.{from_network, from_tunnel, item_alone, item_of};
ghost use Rattle.item_stage.specs.Looks.{carries_plain};
ghost use Rattle.item_stage.specs.Shown.{shown};

use crate::alone::{Alone, outer_fields, read_alone};
use crate::marks::view_inside;
use capture_io::{Form, Frame, frame_of};
use ip_codec::{IPV4_IN_IPV6, ItemView, is_ip6, is_plain4, known_ip6, plain_packet};

/// The item of a record's bytes where no other record came, in a capture of this form, written where the caller keeps it: a
/// fragment is `Held`. What it carries is read once, and stands where it was.
//
// Most records are one of two kinds, which a few tests tell. Their fields are then read where the item is made: what is handed
// on as a value is copied word by word, and its place is cleared first.
pub(crate) fn read_item_into<'a>(form: Form, bytes: &'a [u8], item: &mut ItemView<'a>)
    ensures { seen item.new ≡ item_of form bytes.now }
{
    match frame_of(form.link, bytes) {
        Frame::V6(packet) if carries_plain(packet) => plain_in_tunnel(packet, item),
        Frame::V4(packet) if is_plain4(packet) => plain_from_network(packet, item),
        _ => other_item(form, bytes, item),
    }
}

// The same of any record.
#[cold]
#[inline(never)]
fn other_item<'a>(form: Form, bytes: &'a [u8], item: &mut ItemView<'a>)
    ensures { seen item.new ≡ item_of form bytes.now }
{
    *item = alone_view(read_alone(form, bytes));
}

/// The item of a record by itself: a fragment waits.
pub(crate) fn alone_view<'a>(alone: Alone<'a>) -> ItemView<'a>
    ensures { seen result ≡ item_alone (shown alone.entry) }
{
    match alone {
        Alone::Ready(item) => item,
        Alone::Downstream(_) => ItemView::Held,
        Alone::Cut(_) => ItemView::Held,
        Alone::Carries(inside) => view_inside(inside),
    }
}

// An IPv4 packet from the IPv4 network: no fragment, and without options.
#[inline(always)]
fn plain_from_network<'a>(bytes: &'a [u8], item: &mut ItemView<'a>)
    requires { is_plain (ip4_of bytes.now) ≡ true }
    ensures { seen item.new ≡ item_alone (from_network (ip4_of bytes.now)) }
{
    *item = ItemView::Down {
        packet: plain_packet(bytes),
    };
}

// An IPv6 packet with such a packet at once behind its fixed header.
#[inline(always)]
fn plain_in_tunnel<'a>(bytes: &'a [u8], item: &mut ItemView<'a>)
    requires { carries_plain (ip6_of bytes.now) ≡ true }
    ensures { seen item.new ≡ item_alone (from_tunnel (ip6_of bytes.now)) }
{
    let packet = known_ip6(bytes);
    *item = ItemView::Up {
        outer: outer_fields(&packet),
        inner: plain_packet(packet.body),
    };
}

#[inline(always)]
fn carries_plain(bytes: &[u8]) -> bool
    ensures { result ≡ carries_plain (ip6_of bytes.now) }
{
    if !is_ip6(bytes) {
        return false;
    }
    let packet = known_ip6(bytes);
    packet.next == IPV4_IN_IPV6 && is_plain4(packet.body)
}
