// The headers of fragments, appended to what is written.
ghost use Rattle.std.specs.Prelude.{◌≡◌, ◌+◌, ◌≤◌, ◌++◌, length, IfOk, IsErr};
ghost use Rattle.aftr_base.specs.Appended.{Extends};
ghost use Rattle.ip_codec.specs.Packet6.{packet6};
ghost use Rattle.fragmenter.specs.Pieces6.{piece6, fragment_bytes, fragment_head};

use aftr_base::OutOfMemory;
use ip_codec::{FRAGMENT, FRAGMENT_LEN, Head6, Ip6View, push_head6};

// Appends the fragment that carries a part of a tunnel packet's body. The part comes in two, one behind the other.
pub(crate) fn push_piece6(
    out: &mut Vec<u8>,
    packet: &Ip6View<'_>,
    id: u32,
    before: usize,
    more: bool,
    first: &[u8],
    second: &[u8],
) -> Result<(), OutOfMemory>
    requires place { before ≤ 65535 }
    requires most { length first.now + length second.now ≤ 65527 }
    ensures bytes { IfOk result (λ _. out.new.items ≡ out.old.items ++ piece6 (packet6 packet.now) id before more (first.now ++ second.now)) }
    ensures kept { IsErr result → Extends out.old.items out.new.items }
{
    let head = fragment_head(packet);
    let len = first.len() + second.len();
    push_head6(out, &head, (FRAGMENT_LEN + len) as u16)?;
    push_fragment_header(out, packet.next, before, more, id)?;
    push_part(out, first, second)?;
    Ok(())
}

// Appends two lists.
fn push_part(out: &mut Vec<u8>, first: &[u8], second: &[u8]) -> Result<(), OutOfMemory>
    ensures bytes { IfOk result (λ _. out.new.items ≡ out.old.items ++ (first.now ++ second.now)) }
    ensures kept { IsErr result → Extends out.old.items out.new.items }
{
    out.extend_from_slice(first)?;
    out.extend_from_slice(second)?;
    Ok(())
}

// The header of a fragment of a packet.
fn fragment_head(packet: &Ip6View<'_>) -> Head6
    ensures { result ≡ fragment_head (packet6 packet.now) }
{
    Head6 {
        word: packet.word,
        next: FRAGMENT,
        hop: packet.hop,
        src: packet.src,
        dst: packet.dst,
    }
}

// Appends a Fragment header.
fn push_fragment_header(
    out: &mut Vec<u8>,
    next: u8,
    before: usize,
    more: bool,
    id: u32,
) -> Result<(), OutOfMemory>
    requires { before ≤ 65535 }
    ensures bytes { IfOk result (λ _. out.new.items ≡ out.old.items ++ fragment_bytes next before more id) }
    ensures kept { IsErr result → Extends out.old.items out.new.items }
{
    let place = (before / 8 * 8) as u16 + u16::from(more);
    out.extend_from_slice(&[next, 0])?;
    out.extend_from_slice(&place.to_be_bytes())?;
    out.extend_from_slice(&id.to_be_bytes())?;
    Ok(())
}
