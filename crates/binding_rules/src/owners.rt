// The slots of the keys: for each port or identifier the place whose binding was the last to take it. A slot counts for
// an address only where the binding at the place has that address, so the slots need no clearing between addresses.
ghost use Rattle.std.specs.Prelude.{◌≡◌, ◌+◌, ◌<◌, ◌^◌, true, length};
ghost use Rattle.port_set.specs.Shapes.{IsShape};
ghost use Rattle.binding_rules.specs.Scans.{IsLeast, IsMet, IsTaken, owner_named, lesser_of};
ghost use Rattle.binding_rules.specs.Steps.{meet_steps, port_steps};

use crate::binding::Binding;
use crate::counter::Steps;
use aftr_base::V4;
use port_set::{ports_of, shape_of};
use std::sync::ledger::Ledger;

/// The place that a slot names, where the binding there has the address.
fn owner_of(bindings: &[Binding], v4: V4, slot: Option<u32>) -> Option<u32>
    ensures { result ≡ owner_named bindings.now v4.0 slot }
{
    match bindings.get(slot? as usize) {
        Some(binding) if binding.v4 == v4 => slot,
        _ => None,
    }
}

/// The lesser of two places, where there are two.
fn lesser(x: Option<u32>, y: Option<u32>) -> Option<u32>
    ensures { result ≡ lesser_of x y }
{
    match (x, y) {
        (Some(a), Some(b)) => Some(if b < a { b } else { a }),
        (None, y) => y,
        (x, None) => x,
    }
}

/// The least place that the slots of the binding's keys name. Then they name the place of this binding.
pub(crate) fn meet<L: Ledger>(
    bindings: &[Binding],
    v4: V4,
    by_port: bool,
    place: u32,
    binding: Binding,
    owners: &mut [Option<u32>],
    steps: &mut Steps<L>,
) -> Option<u32>
    requires shape { IsShape binding.offset binding.length }
    requires psid { binding.psid < 2 ^ binding.length }
    requires size { length owners.old ≡ 65536 }
    ensures least { IsLeast (IsMet by_port binding bindings.now v4.0 owners.old) result }
    ensures taken { IsTaken by_port binding place owners.old owners.new }
    ensures cost { steps.new ≡ steps.old + meet_steps by_port binding }
{
    if by_port {
        let met = least_of_ports(bindings, v4, binding, owners, steps);
        take_ports(binding, place, owners, steps);
        met
    } else {
        steps.tick();
        let key = usize::from(binding.psid);
        let met = owner_of(bindings, v4, owners[key]);
        owners[key] = Some(place);
        met
    }
}

fn least_of_ports<L: Ledger>(
    bindings: &[Binding],
    v4: V4,
    binding: Binding,
    owners: &[Option<u32>],
    steps: &mut Steps<L>,
) -> Option<u32>
    requires shape { IsShape binding.offset binding.length }
    requires psid { binding.psid < 2 ^ binding.length }
    requires size { length owners.now ≡ 65536 }
    ensures least { IsLeast (IsMet true binding bindings.now v4.0 owners.now) result }
    ensures cost { steps.new ≡ steps.old + port_steps binding }
{
    let mut met = None;
    if let Ok(shape) = shape_of(binding.offset, binding.length) {
        'ports: for port in ports_of(shape, binding.psid) {
            steps.tick();
            met = lesser(met, owner_of(bindings, v4, owners[usize::from(port)]));
        }
    }
    met
}

fn take_ports<L: Ledger>(
    binding: Binding,
    place: u32,
    owners: &mut [Option<u32>],
    steps: &mut Steps<L>,
)
    requires shape { IsShape binding.offset binding.length }
    requires psid { binding.psid < 2 ^ binding.length }
    requires size { length owners.old ≡ 65536 }
    ensures taken { IsTaken true binding place owners.old owners.new }
    ensures cost { steps.new ≡ steps.old + port_steps binding }
{
    if let Ok(shape) = shape_of(binding.offset, binding.length) {
        'ports: for port in ports_of(shape, binding.psid) {
            steps.tick();
            owners[usize::from(port)] = Some(place);
        }
    }
}
