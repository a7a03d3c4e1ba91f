// The owner of a port of an address, or of the whole address.
ghost use Rattle.std.specs.Prelude.{◌≡◌, ◌↔◌, [], IfSome, IfNone, IsTrue, true};
ghost use Rattle.port_set.specs.Shapes.{IsShape};
ghost use Rattle.binding_rules.specs.Bindings.{bound, is_bound, IsPlaceOf};

use crate::binding::{Binding, Want};
use crate::ports::owns_port;
use crate::table::Table;
use aftr_base::V4;

/// The place of the one binding with this address that owns the port, or, for `Whole`, whose offset and length are both
/// 0; None where there is none. It reads the list from its front.
pub fn find(table: &Table, v4: V4, want: Want) -> Option<usize>
    ensures place { IfSome result (λ at. IsPlaceOf table.now.bindings v4 want at) }
    ensures none { IfNone result (bound table.now.bindings v4 want ≡ []) }
{
    let bindings = table.bindings();
    'places: for place in 0..bindings.len() {
        if is_owner(bindings[place], v4, want) {
            return Some(place);
        }
    }
    None
}

/// Whether the binding has the address and owns what is wanted.
fn is_owner(binding: Binding, v4: V4, want: Want) -> bool
    requires { IsShape binding.offset binding.length }
    ensures { result ≡ is_bound v4 want binding }
{
    if binding.v4 != v4 {
        return false;
    }
    match want {
        Want::Port(port) => owns_port(binding, port),
        Want::Whole => binding.offset == 0 && binding.length == 0,
    }
}
