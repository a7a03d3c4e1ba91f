// The ports of one binding, and of two.
ghost use Rattle.std.specs.Prelude.{◌≡◌, ◌↔◌, IsTrue};
ghost use Rattle.port_set.specs.PortSets.{in_set};
ghost use Rattle.port_set.specs.Shapes.{IsShape};
ghost use Rattle.binding_rules.specs.Conflicts.{HaveCommonPort};
ghost use Rattle.binding_rules.specs.Scans.{IsWell, greatest_port};

use crate::binding::Binding;
use port_set::{owns, shape_of};

pub(crate) fn owns_port(binding: Binding, port: u16) -> bool
    requires { IsShape binding.offset binding.length }
    ensures { result ≡ in_set binding.offset binding.length binding.psid port }
{
    match shape_of(binding.offset, binding.length) {
        Ok(shape) => owns(shape, binding.psid, port),
        Err(_) => false,
    }
}

/// The greatest port of the binding. It has each bit that some port of the binding has.
fn greatest_port(binding: Binding) -> u16
    requires { IsWell binding }
    ensures { result ≡ greatest_port binding.offset binding.length binding.psid }
{
    let tail = 16 - binding.offset - binding.length;
    let absent = (1 << binding.length) - 1 - u32::from(binding.psid);
    (65_535 - (absent << tail)) as u16
}

/// Whether a port is in the sets of both. If there is one, the bits that both greatest ports have make one.
pub(crate) fn have_common_port(x: Binding, y: Binding) -> bool
    requires first { IsWell x }
    requires second { IsWell y }
    ensures { IsTrue result ↔ HaveCommonPort x y }
{
    let port = greatest_port(x) & greatest_port(y);
    owns_port(x, port) && owns_port(y, port)
}
