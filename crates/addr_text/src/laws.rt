// What holds of the texts of addresses, whoever reads or writes them.
ghost use Rattle.std.specs.Prelude.{◌≡◌, ℕ, ◌^◌, ◌<◌, List};
ghost use Rattle.addr_text.specs.Ipv4.{IsV4Text};
ghost use Rattle.addr_text.specs.Ipv6.{IsV6Text};
ghost use Rattle.addr_text.specs.Canonical.{IsCanonical, groups_of};

/// No text spells two addresses.
pub fn one_address()
    ensures v4 { (text : List ℕ) (a b : ℕ) → IsV4Text text a → IsV4Text text b → a ≡ b }
    ensures v6 { (text : List ℕ) (a b : ℕ) → IsV6Text text a → IsV6Text text b → a ≡ b }
{}

/// An IPv6 address has one canonical text, and that spells it.
pub fn one_canonical_text()
    ensures one { (groups s t : List ℕ) → IsCanonical s groups → IsCanonical t groups → s ≡ t }
    ensures spells { (text : List ℕ) (a : ℕ) → a < 2 ^ 128 → IsCanonical text (groups_of a) → IsV6Text text a }
{}
