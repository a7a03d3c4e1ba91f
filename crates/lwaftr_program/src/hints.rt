// What would be right, where the refusal of a table does not say it.
use binding_file::{FileRefused, Name, Refused};

/// A line for it, or nothing.
pub(crate) fn hint_for(refused: &FileRefused) -> &'static str {
    match refused {
        FileRefused::TooBig => "  a table file has at most 16777216 bytes\n",
        FileRefused::NotToml => {
            "  a table file is TOML in UTF-8: look for a missing quote, a key given twice, or an integer beyond 2^63 - 1\n"
        }
        FileRefused::Version => "  the key version has to be 1 or 2\n",
        FileRefused::TooCostly => {
            "  it would cost too much to read: see What reading costs in FORMATS.md, and look for brackets that are not closed\n"
        }
        FileRefused::Range(place) => range_hint(place.name()),
        FileRefused::Rules(Refused::Mtu) => "  mtu6 has to be 1280 to 65535, mtu4 576 to 65535\n",
        FileRefused::Rules(Refused::Hop) => range_hint(Name::HopLimit),
        FileRefused::Rules(Refused::Shape { .. }) => {
            "  offset has to be 0 to 15, length 0 to 16, and both together at most 16\n"
        }
        FileRefused::Rules(Refused::Psid { .. }) => range_hint(Name::Psid),
        _ => "",
    }
}

fn range_hint(name: Name) -> &'static str {
    match name {
        Name::Mtu6 => "  mtu6 has to be 1280 to 65535\n",
        Name::Mtu4 => "  mtu4 has to be 576 to 65535\n",
        Name::HopLimit => "  hop_limit has to be 1 to 255\n",
        Name::Offset => "  offset has to be 0 to 15\n",
        Name::Length => "  length has to be 0 to 16, and with offset at most 16\n",
        Name::Psid => "  psid has to be 0 to 2^length - 1\n",
        _ => "",
    }
}
