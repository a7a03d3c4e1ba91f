// Laws about owners. They have no code.
ghost use Rattle.binding_rules.specs.Owning.{OwnersAreListed, OwnsWhatItHas, WholeIsEveryPort};

/// A binding owns exactly the ports whose bits match its port set identifier (RFC 7597, section 5.1). It owns the whole address
/// exactly if it owns every port of it. If a lookup finds one owner, that owner is a binding of the list, has the address and has
/// what was looked up.
pub fn ownership()
    ensures owns { OwnsWhatItHas }
    ensures whole { WholeIsEveryPort }
    ensures listed { OwnersAreListed }
{}
