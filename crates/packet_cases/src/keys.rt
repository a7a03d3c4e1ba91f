// What packets ask of a table: the ports of whole packets.
use binding_rules::Want;
use case_data::{FIRST_FRAGMENT, NO_PORTS, THREE_BYTES, UP};
use ip_codec::ip4;
use port_locate::{Key, Keys, Wants, key_down, key_up, keys_of};
use std::test::Fail;

#[test]
fn keys_are_the_ports_of_whole_packets(rt: HostRuntime) -> Result<(), Fail> {
    let ports = Wants {
        source: Want::Port(1232),
        destination: Want::Port(53),
    };
    let neither = Wants {
        source: Want::Whole,
        destination: Want::Whole,
    };
    let cases: [(&[u8], Key, Key, Keys); 4] = [
        (
            UP,
            Key::At(ports.source),
            Key::At(ports.destination),
            Keys::At(ports),
        ),
        (FIRST_FRAGMENT, Key::NoPort, Key::NoPort, Keys::NoPort),
        (THREE_BYTES, Key::NoPort, Key::NoPort, Keys::NoPort),
        (
            NO_PORTS,
            Key::At(Want::Whole),
            Key::At(Want::Whole),
            Keys::At(neither),
        ),
    ];
    for (bytes, up, down, both) in cases {
        let packet = ip4(bytes).ok().ok_or("a packet")?;
        assert_eq!(rt; (key_up(&packet), key_down(&packet)), (up, down));
        assert_eq!(rt; keys_of(&packet), both);
    }
    Ok(())
}
