// IPv4 datagrams put together.
ghost use Rattle.std.specs.Prelude.{◌≡◌, ◌+◌, ◌≤◌, ◌++◌, [], drop, length, IfOk};
ghost use Rattle.ip_codec.specs.Packet4.{fields4, packet4};
ghost use Rattle.item_stage.specs.Heads.{IsHeader};
ghost use Rattle.item_stage.specs.Rejoined.{IsPacket, rejoined, whole_head};

use aftr_base::{Bytes, OutOfMemory};
use ip_codec::{HEADER4_LEN, Head4, ReadPacket, push_head4, view_of};
use std::alloc::Global;

/// An IPv4 packet in memory of its own: its header, and what stands behind it.
#[derive(Debug, Drop)]
pub(crate) struct Datagram {
    pub(crate) header: Bytes,
    pub(crate) payload: Bytes,
    pub(crate) ghost read: { IsPacket header payload },
}

/// An IPv4 packet where its header and its payload stand.
#[derive(Clone, Copy)]
pub(crate) struct Parts<'a> {
    pub(crate) header: &'a [u8],
    pub(crate) payload: &'a [u8],
    pub(crate) ghost read: { IsPacket header.now payload.now },
}

impl Datagram {
    pub(crate) fn parts(&self) -> Parts<'_>
        ensures header { result.header.now ≡ self.now.header }
        ensures payload { result.payload.now ≡ self.now.payload }
    {
        Parts {
            header: self.header.as_slice(),
            payload: self.payload.as_slice(),
        }
    }
}

impl<'a> Parts<'a> {
    /// The packet, of which nothing is tested again.
    #[inline(always)]
    pub(crate) fn packet(self) -> ReadPacket<'a>
        ensures { packet4 result.view ≡ fields4 self.entry.header.now self.entry.payload.now }
    {
        let view = view_of(self.header, self.payload);
        ReadPacket { view }
    }
}

/// The datagram of which the first fragment has this header, and all fragments together have these bytes, which stay where they
/// are.
pub(crate) fn rejoin(alloc: Global, head: &[u8], body: Bytes) -> Result<Datagram, OutOfMemory>
    requires header { IsHeader head.now }
    requires most { length head.now + length body ≤ 65535 }
    ensures { IfOk result (λ datagram. datagram.header ++ datagram.payload ≡ rejoined head.now body) }
{
    let fields = head_fields(head);
    let mut header = Vec::with_capacity(alloc, head.len())?;
    push_head4(
        &mut header,
        &fields,
        options_of(head),
        body.as_slice().len(),
    )?;
    Ok(Datagram {
        header: Bytes::of(header),
        payload: body,
    })
}

// The options of a header.
fn options_of(head: &[u8]) -> &[u8]
    requires { 20 ≤ length head.now }
    ensures { result.now ≡ drop 20 head.now }
{
    &head[HEADER4_LEN..]
}

// The fields of a header whose datagram is whole.
fn head_fields(head: &[u8]) -> Head4
    requires { 20 ≤ length head.now }
    ensures { result ≡ whole_head (fields4 head.now []) }
{
    let view = view_of(head, &[]);
    Head4 {
        tos: view.tos,
        id: view.id,
        reserved: view.reserved,
        df: view.df,
        mf: false,
        offset: 0,
        ttl: view.ttl,
        protocol: view.protocol,
        src: view.src,
        dst: view.dst,
    }
}
