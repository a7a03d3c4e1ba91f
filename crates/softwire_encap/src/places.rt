// Laws about tunnel packets. They have no code.
ghost use Rattle.softwire_encap.specs.Places.{TunnelsStand};

/// The fields of a tunnel packet stand at their places, whatever the numbers: version 6, the inner type of service as traffic class, no
/// flow label, the length of the inner packet, IPv4 (4) as next header, the hop limit, and both addresses in network byte order. The
/// inner packet stands behind these 40 bytes (RFC 8200, section 3; RFC 2473, section 5).
pub fn tunnels_stand()
    ensures { TunnelsStand }
{}
