// The packets, and the records that have them.
ghost use Rattle.std.specs.Prelude.{◌≡◌, ◌+◌, ◌<◌, ◌≤◌, ◌%◌, ◌^◌, ◌++◌, List, ℕ, ◌*◌, ◌/◌, [], IfOk, length};
ghost use Rattle.capture_io.specs.Written.{record_bytes};
ghost use Rattle.ip_codec.specs.Packet4.{fixed4, header4};
ghost use Rattle.ip_codec.specs.Packet6.{bytes6};
ghost use Rattle.traffic_gen.specs.Traffic.{datagram_of, head_of, outward, packet_by, record_of, tunnel_head, way_of};

use crate::generator::{Draw, Kind};
use crate::subscribers::{AFTR, address_of, port_of, tunnel_end};
use aftr_base::{OutOfMemory, V4, put_checksum};
use ip_codec::HEADER6_LEN;

/// The address that subscribers talk to, 198.51.100.7, and its port.
const SERVER: V4 = V4(0xc633_6407);

const SERVER_PORT: u16 = 53;

// How many bytes a packet has, and how many the header of the tunnel puts before it.
const PACKET_LEN: u32 = 32;

const TUNNEL_LEN: u32 = HEADER6_LEN as u32;

/// From where to where a packet goes.
#[derive(Clone, Copy, Debug, PartialEq, Eq)]
pub struct Way {
    pub from: V4,
    pub from_port: u16,
    pub to: V4,
    pub to_port: u16,
}

fn way_of(draw: Draw) -> Way
    requires sender { draw.sender < 256 }
    requires receiver { draw.receiver < 256 }
    requires place { draw.place < 64 }
    ensures { result ≡ way_of draw }
{
    let own_port = port_of(draw.sender, draw.place);
    match draw.kind {
        Kind::Outward => outward(draw.sender, own_port),
        Kind::Inward => Way {
            from: SERVER,
            from_port: SERVER_PORT,
            to: address_of(draw.sender),
            to_port: own_port,
        },
        Kind::Between => Way {
            from: address_of(draw.sender),
            from_port: own_port,
            to: address_of(draw.receiver),
            to_port: port_of(draw.receiver, draw.place),
        },
        Kind::Foreign => outward(draw.sender, draw.place as u16),
    }
}

fn outward(sender: u32, port: u16) -> Way
    requires { sender < 256 }
    ensures { result ≡ outward sender port }
{
    Way {
        from: address_of(sender),
        from_port: port,
        to: SERVER,
        to_port: SERVER_PORT,
    }
}

// The header of an IPv4 packet (RFC 791, section 3.1).
fn header_of(id: u16, way: Way) -> [u8; 20]
    ensures { result ≡ header4 (head_of id way) [] 12 }
{
    let mut header = unsealed(id, way);
    put_checksum(&mut header, 10);
    header
}

// The same with zero in the place of the checksum.
fn unsealed(id: u16, way: Way) -> [u8; 20]
    ensures { result ≡ fixed4 (head_of id way) 20 32 }
{
    let [id_high, id_low] = id.to_be_bytes();
    let [s0, s1, s2, s3] = way.from.0.to_be_bytes();
    let [d0, d1, d2, d3] = way.to.0.to_be_bytes();
    [
        0x45, 0, 0, 32, id_high, id_low, 0, 0, 64, 17, 0, 0, s0, s1, s2, s3, d0, d1, d2, d3,
    ]
}

// The UDP header and its payload, without a checksum (RFC 768).
fn datagram_of(way: Way) -> [u8; 12]
    ensures { result ≡ datagram_of way }
{
    let [from_high, from_low] = way.from_port.to_be_bytes();
    let [to_high, to_low] = way.to_port.to_be_bytes();
    [
        from_high, from_low, to_high, to_low, 0, 12, 0, 0, b't', b'e', b's', b't',
    ]
}

// The header of the tunnel, before a packet of 32 bytes (RFC 8200, section 3; RFC 2473, section 5).
fn push_tunnel(list: &mut Vec<u8>, sender: u32) -> Result<(), OutOfMemory>
    requires { sender < 256 }
    ensures { IfOk result (λ _. (packet : List ℕ) → length packet ≡ 32 →
        list.new.items ++ packet ≡ list.old.items ++ bytes6 (tunnel_head sender) packet) }
{
    list.extend_from_slice(&[0x60, 0, 0, 0, 0, 32, 4, 64])?;
    list.extend_from_slice(&tunnel_end(sender).0.to_be_bytes())?;
    list.extend_from_slice(&AFTR.0.to_be_bytes())?;
    Ok(())
}

// The header of a record, a millisecond after the one before.
fn push_head(list: &mut Vec<u8>, number: u32, len: u32) -> Result<(), OutOfMemory>
    ensures { IfOk result (λ _. (packet : List ℕ) → length packet ≡ len →
        list.new.items ++ packet ≡ list.old.items ++ record_bytes (number / 1000) (number % 1000 * 1000) packet) }
{
    list.extend_from_slice(&(number / 1000).to_le_bytes())?;
    list.extend_from_slice(&(number % 1000 * 1000).to_le_bytes())?;
    list.extend_from_slice(&len.to_le_bytes())?;
    list.extend_from_slice(&len.to_le_bytes())?;
    Ok(())
}

// What stands before the IPv4 packet of a record: the record's header, and the header of the tunnel where the packet comes
// from a subscriber.
fn push_front(list: &mut Vec<u8>, number: u32, draw: Draw) -> Result<(), OutOfMemory>
    requires { draw.sender < 256 }
    ensures { IfOk result (λ _. (packet : List ℕ) → length packet ≡ 32 → list.new.items ++ packet
        ≡ list.old.items ++ record_bytes (number / 1000) (number % 1000 * 1000) (packet_by draw.kind draw.sender packet)) }
{
    match draw.kind {
        Kind::Inward => push_head(list, number, PACKET_LEN),
        _ => {
            push_head(list, number, TUNNEL_LEN + PACKET_LEN)?;
            push_tunnel(list, draw.sender)
        }
    }
}

// The record with this number. Where there is no memory, some of it may stand in the list.
pub(crate) fn push_record(list: &mut Vec<u8>, number: u32, draw: Draw) -> Result<(), OutOfMemory>
    requires sender { draw.sender < 256 }
    requires receiver { draw.receiver < 256 }
    requires place { draw.place < 64 }
    ensures { IfOk result (λ _. let r = record_of number draw in
        list.new.items ≡ list.old.items ++ record_bytes r.seconds r.fraction r.packet) }
{
    let way = way_of(draw);
    let header = header_of((number % 65536) as u16, way);
    let datagram = datagram_of(way);
    push_front(list, number, draw)?;
    list.extend_from_slice(&header)?;
    list.extend_from_slice(&datagram)?;
    Ok(())
}
