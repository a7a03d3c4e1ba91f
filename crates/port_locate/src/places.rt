// Laws about keys. They have no code.
ghost use Rattle.port_locate.specs.Read.{FragmentsNameNone, IdentifiersAreRead, OthersAskForAll, PortsAreRead, QuotedPortsAreRead};

/// A packet's key is read from fixed places: the two ports behind the header, the identifier of an ICMP echo, or the ports of the packet
/// that another ICMP message quotes. A packet of a protocol without ports asks for the whole address, and a fragment for nothing
/// (RFC 7596, section 8.1).
pub fn ports_are_read()
    ensures ports { PortsAreRead }
    ensures identifiers { IdentifiersAreRead }
    ensures quoted { QuotedPortsAreRead }
    ensures others { OthersAskForAll }
    ensures fragments { FragmentsNameNone }
{}
