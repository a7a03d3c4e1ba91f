// A packet that fits.
ghost use Rattle.std.specs.Prelude.{◌≡◌, ◌∷◌, [], IfOk};

use aftr_base::{Bytes, OutOfMemory, Packets};
use std::alloc::Global;

// A packet that stays as it is.
pub(crate) fn only(alloc: Global, packet: &[u8]) -> Result<Packets, OutOfMemory>
    ensures { IfOk result (λ list. list ≡ packet.now ∷ []) }
{
    let mut list = Vec::new(alloc);
    list.push(Bytes::copy(alloc, packet)?)?;
    Ok(Packets::of(list))
}
