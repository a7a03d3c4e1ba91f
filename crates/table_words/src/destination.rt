// What a table has of a destination.
ghost use Rattle.std.specs.Prelude.{◌≡◌, true};
ghost use Rattle.table_words.specs.Answers.{has_binding, tunnel_of};

use aftr_base::V6;

/// What a table has of an address, and of what is wanted there.
#[derive(Clone, Copy, Debug, PartialEq, Eq)]
pub enum Destination {
    /// No binding has the address.
    Unbound,
    /// Some binding has the address, but none of them owns what is wanted.
    Unowned,
    /// The tunnel's end of the one binding that owns it.
    Owned(V6),
}

impl Destination {
    /// Of an address that a binding has: by the tunnel's end of the owner, if there is one.
    #[inline(always)]
    pub(crate) fn of_owner(owner: Option<V6>) -> Destination
        ensures bound { has_binding result ≡ true }
        ensures tunnel { tunnel_of result ≡ owner }
    {
        match owner {
            Some(end) => Destination::Owned(end),
            None => Destination::Unowned,
        }
    }

    /// The tunnel's end of the owner, where there is one.
    pub fn tunnel(self) -> Option<V6>
        ensures { result ≡ tunnel_of self }
    {
        match self {
            Destination::Owned(end) => Some(end),
            Destination::Unbound | Destination::Unowned => None,
        }
    }
}
