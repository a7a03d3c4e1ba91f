// The texts of RFC 4291, section 2, and RFC 5952, sections 2 and 4, and others, right and wrong. A line has a text and, behind
// `=`, the address that it spells in hexadecimal and the canonical text of that. The answers are those of `ipaddress` of
// Python 3.11, but that a zone name is refused here.
use addr_text::{read_v4, read_v6, write_v4, write_v6};
use aftr_base::{V4, V6};

const V6_TEXTS: &str = "2001:0DB8::0:1=20010db8000000000000000000000001 2001:db8::1
1:0:0:2:0:0:3:4=10000000000020000000000030004 1::2:0:0:3:4
1:0:2:3:4:5:6:7=10000000200030004000500060007 1:0:2:3:4:5:6:7
::ffff:192.0.2.1=ffffc0000201 ::ffff:c000:201
1::2::3=
1:2:3:4:5:6:7=
12345::=
ABCD:EF01:2345:6789:ABCD:EF01:2345:6789=abcdef0123456789abcdef0123456789 abcd:ef01:2345:6789:abcd:ef01:2345:6789
2001:DB8:0:0:8:800:200C:417A=20010db80000000000080800200c417a 2001:db8::8:800:200c:417a
FF01:0:0:0:0:0:0:101=ff010000000000000000000000000101 ff01::101
0:0:0:0:0:0:0:1=1 ::1
0:0:0:0:0:0:0:0=0 ::
2001:DB8::8:800:200C:417A=20010db80000000000080800200c417a 2001:db8::8:800:200c:417a
FF01::101=ff010000000000000000000000000101 ff01::101
::1=1 ::1
::=0 ::
0:0:0:0:0:0:13.1.68.3=d014403 ::d01:4403
0:0:0:0:0:FFFF:129.144.52.38=ffff81903426 ::ffff:8190:3426
::13.1.68.3=d014403 ::d01:4403
::FFFF:129.144.52.38=ffff81903426 ::ffff:8190:3426
2001:0DB8:0000:CD30:0000:0000:0000:0000=20010db80000cd300000000000000000 2001:db8:0:cd30::
2001:0DB8::CD30:0:0:0:0=20010db80000cd300000000000000000 2001:db8:0:cd30::
2001:0DB8:0:CD30::=20010db80000cd300000000000000000 2001:db8:0:cd30::
2001:DB8:0:CD30:123:4567:89AB:CDEF=20010db80000cd300123456789abcdef 2001:db8:0:cd30:123:4567:89ab:cdef
FF02:0:0:0:0:1:FF00::=ff0200000000000000000001ff000000 ff02::1:ff00:0
FF02::1:FF0E:8C6C=ff0200000000000000000001ff0e8c6c ff02::1:ff0e:8c6c
fe80::200:5eff:fe00:5213=fe8000000000000002005efffe005213 fe80::200:5eff:fe00:5213
FF0E:0:0:0:0:0:0:101=ff0e0000000000000000000000000101 ff0e::101
2001:db8:0:0:1:0:0:1=20010db8000000000001000000000001 2001:db8::1:0:0:1
2001:0db8:0:0:1:0:0:1=20010db8000000000001000000000001 2001:db8::1:0:0:1
2001:db8::1:0:0:1=20010db8000000000001000000000001 2001:db8::1:0:0:1
2001:db8::0:1:0:0:1=20010db8000000000001000000000001 2001:db8::1:0:0:1
2001:0db8::1:0:0:1=20010db8000000000001000000000001 2001:db8::1:0:0:1
2001:db8:0:0:1::1=20010db8000000000001000000000001 2001:db8::1:0:0:1
2001:db8:0000:0:1::1=20010db8000000000001000000000001 2001:db8::1:0:0:1
2001:DB8:0:0:1::1=20010db8000000000001000000000001 2001:db8::1:0:0:1
2001:db8:aaaa:bbbb:cccc:dddd:eeee:0001=20010db8aaaabbbbccccddddeeee0001 2001:db8:aaaa:bbbb:cccc:dddd:eeee:1
2001:db8:aaaa:bbbb:cccc:dddd:eeee:001=20010db8aaaabbbbccccddddeeee0001 2001:db8:aaaa:bbbb:cccc:dddd:eeee:1
2001:db8:aaaa:bbbb:cccc:dddd:eeee:01=20010db8aaaabbbbccccddddeeee0001 2001:db8:aaaa:bbbb:cccc:dddd:eeee:1
2001:db8:aaaa:bbbb:cccc:dddd:eeee:1=20010db8aaaabbbbccccddddeeee0001 2001:db8:aaaa:bbbb:cccc:dddd:eeee:1
2001:db8:aaaa:bbbb:cccc:dddd::1=20010db8aaaabbbbccccdddd00000001 2001:db8:aaaa:bbbb:cccc:dddd:0:1
2001:db8:aaaa:bbbb:cccc:dddd:0:1=20010db8aaaabbbbccccdddd00000001 2001:db8:aaaa:bbbb:cccc:dddd:0:1
2001:db8:0:0:0::1=20010db8000000000000000000000001 2001:db8::1
2001:db8:0:0::1=20010db8000000000000000000000001 2001:db8::1
2001:db8:0::1=20010db8000000000000000000000001 2001:db8::1
2001:db8::1=20010db8000000000000000000000001 2001:db8::1
2001:db8::aaaa:0:0:1=20010db800000000aaaa000000000001 2001:db8::aaaa:0:0:1
2001:db8:0:0:aaaa::1=20010db800000000aaaa000000000001 2001:db8::aaaa:0:0:1
2001:db8:aaaa:bbbb:cccc:dddd:eeee:AAAA=20010db8aaaabbbbccccddddeeeeaaaa 2001:db8:aaaa:bbbb:cccc:dddd:eeee:aaaa
2001:db8:0:1:1:1:1:1=20010db8000000010001000100010001 2001:db8:0:1:1:1:1:1
2001:db8::1:1:1:1:1=20010db8000000010001000100010001 2001:db8:0:1:1:1:1:1
2001:0:0:1:0:0:0:1=20010000000000010000000000000001 2001:0:0:1::1
64:ff9b::192.0.2.33=64ff9b0000000000000000c0000221 64:ff9b::c000:221
1:2:3:4:5:6:7::=10002000300040005000600070000 1:2:3:4:5:6:7:0
::2:3:4:5:6:7:8=2000300040005000600070008 0:2:3:4:5:6:7:8
1:2:3:4:5:6:1.2.3.4=10002000300040005000601020304 1:2:3:4:5:6:102:304
1::3:4:5:6:7:8=10000000300040005000600070008 1:0:3:4:5:6:7:8
0:0:1:0:0:0:1:0=100000000000000010000 0:0:1::1:0
1:0:0:0:2:0:0:0=10000000000000002000000000000 1::2:0:0:0
1:2:3:4:5:6:7:8:9=
1:2:3:4::5:6:7:8=
::1:2:3:4:5:6:7:8=
1:2:3:4:5:6:7:8::=
:::=
:::1=
1:::=
:=
1:=
:1=
1:2:3:4:5:6:7:=
:2:3:4:5:6:7:8=
::g=
1:2:3:4:5:6:7:g=
fe80::1%eth0=
::1/128=
[::1]=
1:2:3:4:5:6:7:1.2.3.4=
1.2.3.4=
1.2.3.4::=
::1.2.3.4:5=
::1.2.3=
::1.2.3.256=
::01.2.3.4=
::1.2.3.4.5=
2001:db8::-1=
+1::=
0x1::=
2001:db8:::1=
2001:db8::00001=
1:2:3:4:5:6::1.2.3.4=
1:2:3:4:5::1.2.3.4=10002000300040005000001020304 1:2:3:4:5:0:102:304
=
 ::1=
::1 =
:: 1=
";

const V4_TEXTS: &str = "0.0.0.0=0 0.0.0.0
255.255.255.255=ffffffff 255.255.255.255
192.0.2.1=c0000201 192.0.2.1
10.9.100.250=a0964fa 10.9.100.250
1.2.3.4=1020304 1.2.3.4
129.144.52.38=81903426 129.144.52.38
256.1.1.1=
01.2.3.4=
1.2.3=
1.2.3.4.5=
1.2.3.=
.1.2.3=
1..2.3=
00.0.0.0=
1.2.3.04=
1.2.3.4a=
+1.2.3.4=
1.2.3.-4=
0x1.2.3.4=
1.2.3.1000=
::1=
=
 1.2.3.4=
1.2.3.4 =
1. 2.3.4=
";

// Whether a text and a canonical one are of this address.
fn is_v6(address: V6, text: &str, canonical: &str) -> bool {
    read_v6(text) == Ok(address)
        && write_v6(address).as_str() == canonical
        && read_v6(canonical) == Ok(address)
}

fn is_v4(address: V4, text: &str, canonical: &str) -> bool {
    read_v4(text) == Ok(address) && write_v4(address).as_str() == canonical
}

// Whether a line is right.
fn is_right_v6(line: &str) -> bool {
    let Some((text, answer)) = line.split_once('=') else {
        return false;
    };
    let Some((bits, canonical)) = answer.split_once(' ') else {
        return read_v6(text).is_err();
    };
    let Ok(bits) = u128::from_str_radix(bits, 16) else {
        return false;
    };
    is_v6(V6(bits), text, canonical)
}

fn is_right_v4(line: &str) -> bool {
    let Some((text, answer)) = line.split_once('=') else {
        return false;
    };
    let Some((bits, canonical)) = answer.split_once(' ') else {
        return read_v4(text).is_err();
    };
    let Ok(bits) = u32::from_str_radix(bits, 16) else {
        return false;
    };
    is_v4(V4(bits), text, canonical)
}

#[test]
fn texts_are_read_and_written(rt: HostRuntime) {
    for line in V6_TEXTS.lines() {
        assert!(rt; is_right_v6(line), "{line}");
    }
    for line in V4_TEXTS.lines() {
        assert!(rt; is_right_v4(line), "{line}");
    }
}
