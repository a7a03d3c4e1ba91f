// The keys of a table file, and the places where they stand.
use std::fmt;

/// A key of a table file.
#[derive(Clone, Copy, Debug, PartialEq, Eq)]
pub enum Name {
    Version,
    Softwire,
    Binding,
    Aftr,
    Own,
    Mtu6,
    Mtu4,
    HopLimit,
    Hairpin,
    IcmpIn,
    ErrorsUp,
    ErrorsDown,
    B4,
    Ipv4,
    Offset,
    Length,
    Psid,
}

impl Name {
    ghost use Rattle.std.specs.Prelude.{◌≡◌};
    ghost use Rattle.binding_file.specs.Names.{key_of};

    /// The key as the file has it, such as `hop_limit`.
    pub fn key(self) -> &'static str
        ensures { result.now ≡ key_of self }
    {
        match self {
            Name::Version => "version",
            Name::Softwire => "softwire",
            Name::Binding => "binding",
            Name::Aftr => "aftr",
            Name::Own => "own",
            Name::Mtu6 => "mtu6",
            Name::Mtu4 => "mtu4",
            Name::HopLimit => "hop_limit",
            Name::Hairpin => "hairpin",
            Name::IcmpIn => "icmp_in",
            Name::ErrorsUp => "errors_up",
            Name::ErrorsDown => "errors_down",
            Name::B4 => "b4",
            Name::Ipv4 => "ipv4",
            Name::Offset => "offset",
            Name::Length => "length",
            Name::Psid => "psid",
        }
    }
}

/// Where a key stands: at the top, in `softwire`, or in the element of `binding` with this place, counted from 0. It prints
/// as `version`, `softwire aftr` or `binding 3 psid`.
#[derive(Clone, Copy, Debug, PartialEq, Eq)]
pub enum Place {
    Top(Name),
    Softwire(Name),
    Binding { at: u32, name: Name },
}

impl Place {
    ghost use Rattle.std.specs.Prelude.{◌≡◌};
    ghost use Rattle.binding_file.specs.Names.{name_at};

    /// The key that stands there.
    pub fn name(self) -> Name
        ensures { result ≡ name_at self }
    {
        match self {
            Place::Top(name) => name,
            Place::Softwire(name) => name,
            Place::Binding { name, .. } => name,
        }
    }
}

impl fmt::Display for Place {
    ghost use Rattle.std.specs.Prelude.{Some};
    ghost use Rattle.binding_file.specs.Names.{place_text};

    ghost output = { λ place. Some (place_text place) };

    fn fmt<W: fmt::Write>(&self, f: &mut fmt::Formatter<W>) -> fmt::Result {
        match *self {
            Place::Top(name) => f.write_str(name.key()),
            Place::Softwire(name) => {
                let key = name.key();
                write!(f, "softwire {key}")
            }
            Place::Binding { at, name } => {
                let key = name.key();
                write!(f, "binding {at} {key}")
            }
        }
    }
}
