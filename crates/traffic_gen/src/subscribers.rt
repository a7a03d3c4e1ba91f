// The subscribers, and the tables that have them.
ghost use Rattle.std.specs.Prelude.{◌≡◌, ◌-◌, ◌<◌, ◌≤◌, IfOk, map, vec_len};
ghost use Rattle.std.specs.List.{range_with_len};
ghost use Rattle.traffic_gen.specs.Traffic.{address_of, binding_of, port_of, table_from, tunnel_end};

use aftr_base::{OutOfMemory, V4, V6};
use binding_rules::{Binding, Edition, Softwire, Table, TableError, table_of};
use std::alloc::Global;

/// The router's end of the tunnels, 2001:db8::1.
pub(crate) const AFTR: V6 = V6(0x2001_0db8_0000_0000_0000_0000_0000_0001);

const OWN: V4 = V4(0xc000_0201);

const SETTINGS: Softwire = Softwire {
    aftr: AFTR,
    own: OWN,
    mtu6: 1500,
    mtu4: 1500,
    hop_limit: 64,
    hairpin: true,
    icmp_in: true,
    errors_up: false,
    errors_down: false,
};

const SUBSCRIBERS: u32 = 256;

// The address of 203.0.113.0 on that the subscriber shares with fifteen others.
pub(crate) fn address_of(subscriber: u32) -> V4
    requires { subscriber < 256 }
    ensures { result ≡ address_of subscriber }
{
    V4(0xcb00_7100 + subscriber / 16)
}

// The subscriber's end of its tunnel.
pub(crate) fn tunnel_end(subscriber: u32) -> V6
    requires { subscriber < 256 }
    ensures { result ≡ tunnel_end subscriber }
{
    V6(0x2001_0db8_0001_0000_0000_0000_0000_0000 + u128::from(subscriber))
}

// One of the subscriber's 64 least ports.
pub(crate) fn port_of(subscriber: u32, place: u32) -> u16
    requires { place < 64 }
    ensures { result ≡ port_of subscriber place }
{
    (1024 + 64 * (subscriber % 16) + place) as u16
}

fn binding_of(subscriber: u32) -> Binding
    requires { subscriber < 256 }
    ensures { result ≡ binding_of subscriber }
{
    Binding {
        b4: tunnel_end(subscriber),
        v4: address_of(subscriber),
        offset: 6,
        length: 4,
        psid: (subscriber % 16) as u16,
    }
}

fn bindings_from(alloc: Global, first: u32) -> Result<Vec<Binding>, OutOfMemory>
    requires { first ≤ 256 }
    ensures list { IfOk result (λ bindings. bindings.items ≡ map binding_of (range_with_len first (256 - first))) }
    ensures few { IfOk result (λ bindings. vec_len bindings ≤ 256) }
{
    let mut bindings = Vec::with_capacity(alloc, (SUBSCRIBERS - first) as usize)?;
    'subscribers: for subscriber in first..SUBSCRIBERS {
        bindings.push(binding_of(subscriber))?;
    }
    Ok(bindings)
}

// The table of the subscribers from the first one on. No rule refuses it: an address and an identifier are one subscriber's.
pub(crate) fn table_from(alloc: Global, first: u32) -> Result<Table, OutOfMemory>
    requires { first ≤ 256 }
    ensures { IfOk result (λ table. table ≡ table_from first) }
{
    let bindings = bindings_from(alloc, first)?;
    match table_of(alloc, Edition::One, SETTINGS, bindings) {
        Ok(table) => Ok(table),
        Err(TableError::OutOfMemory) => Err(OutOfMemory),
        Err(TableError::Refused(_)) => unreachable!(),
    }
}
