// What an item's packets are made of.
ghost use Rattle.std.specs.Prelude.{◌≡◌, MatchOption, None, Some};
ghost use Rattle.icmp_relay.specs.Quotes.{tunnel_quote};
ghost use Rattle.ip_codec.specs.Packet4.{packet4};
ghost use Rattle.ip_codec.specs.Seen.{seen};
ghost use Rattle.packet_render.specs.Sent.{packet_of_item, quote_of_item};

use icmp_codec::icmp6;
use icmp_relay::{Quote, read_quote};
use ip_codec::{ItemView, ReadPacket};

// The item's IPv4 packet, where it has one.
pub(crate) fn packet_of<'a>(item: &ItemView<'a>) -> Option<ReadPacket<'a>>
    ensures { MatchOption result (packet_of_item (seen item.now) ≡ None)
        (λ packet. packet_of_item (seen item.now) ≡ Some (packet4 packet.view)) }
{
    match item {
        ItemView::Down { packet } => Some(*packet),
        ItemView::Up { inner, .. } => Some(*inner),
        ItemView::UpUnread { .. }
        | ItemView::OtherIp6 { .. }
        | ItemView::Icmp6 { .. }
        | ItemView::Held
        | ItemView::Bad(_) => None,
    }
}

// The tunnel packet that the item's ICMPv6 message quotes, where both can be read.
pub(crate) fn quote_of<'a>(item: &ItemView<'a>) -> Option<Quote<'a>>
    ensures { MatchOption result (quote_of_item (seen item.now) ≡ None)
        (λ quote. quote_of_item (seen item.now) ≡ Some (tunnel_quote quote)) }
{
    let ItemView::Icmp6 { src, dst, message } = item else {
        return None;
    };
    let Ok(view) = icmp6(*src, *dst, message) else {
        return None;
    };
    match read_quote(view.rest) {
        Ok(quote) => Some(quote),
        Err(_) => None,
    }
}
