// What holds of the packets of every verdict. These laws have no code.
ghost use Rattle.std.specs.Prelude.{ℕ, length};
ghost use Rattle.binding_rules.specs.Tables.{BindingTable, IsLawful};
ghost use Rattle.ip_codec.specs.declared.items.Item.{Item};
ghost use Rattle.packet_render.specs.Counted.{Sends};
ghost use Rattle.packet_render.specs.Replies.{IsInRange, SaysWhy};
ghost use Rattle.packet_render.specs.Rightly.{IsRightlySent};
ghost use Rattle.packet_render.specs.Sent.{replies, sent};
ghost use Rattle.packet_render.specs.Tunnels.{ErrorsReachOwners, TunnelsAreOwners};
ghost use Rattle.packet_render.specs.WhatCame.{BytesAreEnough, CarriesBytes, SendsWhatCame};
ghost use Rattle.verdict_core.specs.Fitting.{Fits, FitsReply, HasRoom};
ghost use Rattle.verdict_core.specs.Verdicts.{verdict_of};
ghost use Rattle.verdict_core.specs.declared.verdicts.Reply.{Reply};
ghost use Rattle.verdict_core.specs.declared.verdicts.Verdict.{Verdict};

/// A packet that is forwarded is written: by a verdict that fits its item, at least one packet is sent where it goes on, just one
/// where its sender is told why it is dropped, and none where it is held or dropped in silence.
pub fn forwarded_is_sent()
    ensures { (i : Item) (v : Verdict) (number : ℕ) → Fits i v → HasRoom v → Sends v (length (sent i v number)) }
{}

/// What is sent is what came. The receiver of a packet that goes on reads the packet that came: its time to live is one lower, its header
/// checksum is right, and every other field, the options and the payload are as they were. In a tunnel it stands behind an IPv6 header
/// from the router to the owner. If it is cut, the pieces put together are that packet (RFC 791, section 3.2; RFC 2473, section 5;
/// RFC 8200, section 4.5). That IPv4 pieces can be read back holds if the numbers of the item are bytes.
pub fn sent_is_what_came()
    ensures { (i : Item) (v : Verdict) (number : ℕ) → Fits i v → HasRoom v → SendsWhatCame i v number (sent i v number) }
{}

/// What is written into a tunnel is for its owner. The IPv4 packet in it has the address of a binding of the table, and a port of it or
/// what stands for one. The tunnel packet goes to the tunnel's end of that binding (RFC 7596, section 6.2).
pub fn tunnels_are_private()
    ensures { (t : BindingTable) (i : Item) (number : ℕ) → IsLawful t → TunnelsAreOwners t (verdict_of t i) number (sent i (verdict_of t i) number) }
{}

/// An error that is passed on into a tunnel goes to the owner of the address and port that the quoted packet came from (RFC 2473,
/// section 8).
pub fn errors_are_private()
    ensures { (t : BindingTable) (i : Item) → IsLawful t → ErrorsReachOwners t i (verdict_of t i) }
{}

/// A reply is one packet: an error to the source of the packet that it is about, which sums up and quotes the first bytes of that packet.
/// It goes as it is, or in a tunnel packet to the end that the reply names. Nothing is written for a silent drop. This holds if the numbers
/// of the item are bytes, and if the router's address has 32 bits and the size that the reply tells 16.
pub fn replies_say_why()
    ensures { (i : Item) (told : Reply) → FitsReply i told → CarriesBytes i → IsInRange told → SaysWhy i told (replies i told) }
{}

/// All of these laws, and those of `verdict_core` about replies, for the verdict on an item under a table.
pub fn sent_rightly()
    ensures { (t : BindingTable) (i : Item) (number : ℕ) → IsLawful t → IsRightlySent t i (verdict_of t i) number }
{}

/// A packet that is read from bytes has the numbers of bytes.
pub fn bytes_are_enough()
    ensures { BytesAreEnough }
{}
