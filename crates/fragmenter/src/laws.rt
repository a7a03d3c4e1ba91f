// Each packet has exactly one list of pieces.
ghost use Rattle.fragmenter.specs.Laws.{OneCut4, OneCut6};

/// The law that exactly one list is that of a tunnel packet's pieces, for proofs above: the list that `pieces6` names.
pub fn one_cut6()
    ensures { OneCut6 }
{}

/// The same for an IPv4 packet, and `pieces4`.
pub fn one_cut4()
    ensures { OneCut4 }
{}
