// What holds of the items of all records, whatever waits. These laws have no code.
ghost use Rattle.item_stage.specs.Sources.{DownKeysAreRead, EachIsOfOneWay, InnerKeysAreRead, OuterKeysAreRead};

/// The pieces of a datagram that is put together came through one tunnel, or all came outside of tunnels. They have one key, which is
/// their source, destination, protocol and identification, as read from their bytes (RFC 791, section 3.2; RFC 8200, section 4.5).
pub fn one_way()
    ensures way { EachIsOfOneWay }
    ensures down { DownKeysAreRead }
    ensures inner { InnerKeysAreRead }
    ensures outer { OuterKeysAreRead }
{}
