// What holds of every verdict, whoever finds it.
ghost use Rattle.std.specs.Prelude.{◌≡◌, Some};
ghost use Rattle.binding_rules.specs.Tables.{BindingTable, IsLawful};
ghost use Rattle.ip_codec.specs.declared.items.Item.{Item};
ghost use Rattle.verdict_core.specs.Access.{BringsIn, Delivers, Forbidden, Forwards, PassesOn, Refused, RelaysAll, RelaysOwn, SendsOn};
ghost use Rattle.verdict_core.specs.Back.{GoesBack};
ghost use Rattle.verdict_core.specs.Fitting.{Fits, HasRoom};
ghost use Rattle.verdict_core.specs.Lines.{verdict_in};
ghost use Rattle.verdict_core.specs.Named.{NamesDown};
ghost use Rattle.verdict_core.specs.NamedMessages.{NamesMessages};
ghost use Rattle.verdict_core.specs.Others.{AreAlikeFor};
ghost use Rattle.verdict_core.specs.Told.{TellsWhatIsDue};
ghost use Rattle.verdict_core.specs.Verdicts.{Judged, lines, verdict_of};

/// Each item has one verdict under each table: some line of its list is true. Of every valid table's verdicts it holds that
/// a subscriber's packet goes on exactly where its tunnel address, IPv4 address and port stand in one binding and no named
/// rule keeps it, that each drop of such a packet has its rule, that what goes into a tunnel goes to the owner of its
/// destination (RFC 7596, section 6.2), and that an error about a tunnel packet is passed on where it quotes one that the
/// router sent to its owner (RFC 2473, section 8). With no rule named and no list read: exactly when a subscriber's packet
/// goes on, and where to (`sends_on`), exactly when a packet from the IPv4 network is delivered, and to whom (`brings_in`),
/// and exactly when an error is passed on (`passes_on`).
pub fn access()
    ensures some { (t : BindingTable) (i : Item) → verdict_in (lines t i) ≡ Some (verdict_of t i) }
    ensures judged { (t : BindingTable) (i : Item) → Judged t i (verdict_of t i) }
    ensures fits { (t : BindingTable) (i : Item) → IsLawful t → Fits i (verdict_of t i) }
    ensures room { (t : BindingTable) (i : Item) → IsLawful t → HasRoom (verdict_of t i) }
    ensures forwards { (t : BindingTable) (i : Item) → IsLawful t → Forwards t i (verdict_of t i) }
    ensures forbidden { (t : BindingTable) (i : Item) → IsLawful t → Forbidden t i (verdict_of t i) }
    ensures refused { (t : BindingTable) (i : Item) → IsLawful t → Refused t i (verdict_of t i) }
    ensures sends_on { (t : BindingTable) (i : Item) → IsLawful t → SendsOn t i (verdict_of t i) }
    ensures brings_in { (t : BindingTable) (i : Item) → IsLawful t → BringsIn t i (verdict_of t i) }
    ensures delivers { (t : BindingTable) (i : Item) → IsLawful t → Delivers t i (verdict_of t i) }
    ensures relays_own { (t : BindingTable) (i : Item) → IsLawful t → RelaysOwn t i (verdict_of t i) }
    ensures relays_all { (t : BindingTable) (i : Item) → IsLawful t → RelaysAll t i (verdict_of t i) }
    ensures passes_on { (t : BindingTable) (i : Item) → IsLawful t → PassesOn t i (verdict_of t i) }
{}

/// A change of the table touches nobody else. Two tables that have the same settings, and the same set of bindings of each address
/// that an item names, give the item the same verdict and so the same reply. The order of the bindings does not matter.
pub fn others_stay()
    ensures { (t u : BindingTable) (i : Item) → IsLawful t → IsLawful u → AreAlikeFor i t u → verdict_of t i ≡ verdict_of u i }
{}

/// A reply goes back by the way that the packet came: as it is to the IPv4 network, and to a subscriber in the tunnel that its packet came
/// through. It comes from the router's own address (RFC 7596, section 6.2).
pub fn replies_go_back()
    ensures { (t : BindingTable) (i : Item) → GoesBack t.softwire i (verdict_of t i) }
{}

/// A packet from the IPv4 network is dropped by exactly the first rule that keeps it, in the order of docs/FORMATS.md, and so is an
/// ICMPv6 message. Each condition is a fact about the packet and the table.
pub fn drops_are_named()
    ensures down { (t : BindingTable) (i : Item) → IsLawful t → NamesDown t i (verdict_of t i) }
    ensures messages { (t : BindingTable) (i : Item) → IsLawful t → NamesMessages t i (verdict_of t i) }
{}

/// The sender of a dropped packet is told exactly what its rule asks for, and only if the settings allow it: which error, from whom and by
/// which way, and with the greatest size that fits. An error that is passed on tells 40 bytes less than the tunnel's size (RFC 2473,
/// section 8).
pub fn replies_are_due()
    ensures { (t : BindingTable) (i : Item) → IsLawful t → TellsWhatIsDue t i (verdict_of t i) }
{}
