// Addresses, and the settings of a table.
ghost use Rattle.std.specs.Prelude.{◌≡◌, ◌+◌, ◌*◌, ◌^◌};

use aftr_base::{V4, V6};
use binding_rules::Softwire;

/// The router's end of the tunnels, 2001:db8::1.
pub const AFTR: V6 = V6(0x2001_0db8_0000_0000_0000_0000_0000_0001);

/// The first subscriber's end of the tunnel, 2001:db8:1::1.
pub const SUBSCRIBER: V6 = V6(0x2001_0db8_0001_0000_0000_0000_0000_0001);

/// The router's own IPv4 address, 192.0.2.1.
pub const OWN: V4 = V4(0xc000_0201);

/// The address that subscribers share, 203.0.113.1.
pub const SHARED: V4 = V4(0xcb00_7101);

/// An address of the IPv4 network, 198.51.100.7.
pub const SERVER: V4 = V4(0xc633_6407);

/// Settings, each but the two addresses as a table file has it that does not name it.
pub const SETTINGS: Softwire = Softwire {
    aftr: AFTR,
    own: OWN,
    mtu6: 1500,
    mtu4: 1500,
    hop_limit: 64,
    hairpin: true,
    icmp_in: true,
    errors_up: false,
    errors_down: false,
};

/// The end of the tunnel of the subscriber with this number, of whom the first is 1.
pub fn subscriber(number: u32) -> V6
    ensures { result.0 ≡ 536939960 * 2 ^ 96 + 2 ^ 80 + number }
{
    V6(0x2001_0db8_0001_0000_0000_0000_0000_0000 + u128::from(number))
}
