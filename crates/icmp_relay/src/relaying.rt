// The ICMPv4 error by which an error about a tunnel packet is passed on.
ghost use Rattle.std.specs.Prelude.{◌≡◌, ◌≤◌, ◌++◌, ◌⊎◌, length, if◌then◌else◌, is_ok, IfOk};
ghost use Rattle.icmp_errors.specs.Errors4.{error_len};
ghost use Rattle.icmp_relay.specs.Relayed.{TellsInner, relayed};

use crate::quotes::Quote;
use aftr_base::{Bytes, OutOfMemory, V4};
use icmp_codec::{IcmpHead, UNREACHABLE};
use icmp_errors::push_error4;
use std::alloc::Global;

/// Destination unreachable, from the address `own` to the source of the quoted IPv4 packet, whose first 548 bytes it
/// quotes (RFC 2473, section 8). The code is 1, the host is not reached, or 4, the packet is too big and `mtu` bytes would
/// fit (RFC 1191, section 4). The error has 576 bytes at most.
pub fn relay(
    alloc: Global,
    own: V4,
    code: u8,
    mtu: u16,
    q: &Quote<'_>,
) -> Result<Bytes, OutOfMemory>
    requires { (code ≡ 1) ⊎ (code ≡ 4) }
    ensures bytes { IfOk result (λ packet. packet ≡ relayed own code mtu q.now) }
    ensures size { IfOk result (λ packet. length packet ≡ error_len (length q.now.packet.now)) }
    ensures most { IfOk result (λ packet. length packet ≤ 576) }
    ensures told { IfOk result (λ packet. TellsInner own code mtu q.now packet) }
{
    let mut list = Vec::new(alloc);
    push_relay(&mut list, own, code, mtu, q)?;
    Ok(Bytes::of(list))
}

/// Appends what `relay` writes, with any code. Where there is no memory, the list stays as it was.
pub fn push_relay(
    list: &mut Vec<u8>,
    own: V4,
    code: u8,
    mtu: u16,
    q: &Quote<'_>,
) -> Result<(), OutOfMemory>
    ensures bytes { list.new.items ≡ (if is_ok result then list.old.items ++ relayed own code mtu q.now else list.old.items) }
    ensures size { length (relayed own code mtu q.now) ≡ error_len (length q.now.packet.now) }
    ensures told { IfOk result (λ _. TellsInner own code mtu q.now (relayed own code mtu q.now)) }
{
    let head = IcmpHead {
        kind: UNREACHABLE,
        code,
        word: u32::from(mtu),
    };
    push_error4(list, own, q.src, head, q.packet, &[])
}
