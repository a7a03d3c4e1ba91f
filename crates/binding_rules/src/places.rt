// What is tested of the settings, and of each binding on its own.
ghost use Rattle.std.specs.Prelude.{◌≤◌, IfSome, IfNone, List, length};
ghost use Rattle.binding_rules.specs.Refusals.{IsFirstRefusal};
ghost use Rattle.binding_rules.specs.declared.binding.Binding.{Binding};
ghost use Rattle.binding_rules.specs.declared.settings.Edition.{Edition};
ghost use Rattle.binding_rules.specs.Scans.{IsFine, IsSound, AreSound, IsOwnRefusal, IsPlaceRefusal};

use crate::binding::Binding;
use crate::refused::Refused;
use crate::settings::{LEAST_MTU4, LEAST_MTU6, Softwire};
use aftr_base::V4;
use port_set::shape_of;

/// The first refusal of the settings.
pub(crate) fn settings_refusal(softwire: &Softwire) -> Option<Refused>
    ensures fine { IfNone result (IsFine softwire.now) }
    ensures first { IfSome result (λ r. (e : Edition) (bindings : List Binding) → IsFirstRefusal e softwire.now bindings r) }
{
    if softwire.mtu6 < LEAST_MTU6 || softwire.mtu4 < LEAST_MTU4 {
        return Some(Refused::Mtu);
    }
    if softwire.hop_limit == 0 {
        return Some(Refused::Hop);
    }
    None
}

/// The first refusal of a binding on its own.
fn binding_refusal(own: V4, place: u32, binding: Binding) -> Option<Refused>
    ensures sound { IfNone result (IsSound own.0 binding) }
    ensures first { IfSome result (λ r. IsOwnRefusal own.0 place binding r) }
{
    if shape_of(binding.offset, binding.length).is_err() {
        return Some(Refused::Shape { at: place });
    }
    if u32::from(binding.psid) >= 1 << binding.length {
        return Some(Refused::Psid { at: place });
    }
    if binding.v4 == own {
        return Some(Refused::OwnAddress { at: place });
    }
    None
}

/// The first refusal of the bindings, each on its own.
pub(crate) fn places_refusal(own: V4, bindings: &[Binding]) -> Option<Refused>
    requires { length bindings.now ≤ 65536 }
    ensures sound { IfNone result (AreSound own.0 bindings.now (length bindings.now)) }
    ensures first { IfSome result (λ r. IsPlaceRefusal own.0 bindings.now r) }
{
    'places: for place in 0..bindings.len() {
        let refusal = binding_refusal(own, place as u32, bindings[place]);
        if refusal.is_some() {
            return refusal;
        }
    }
    None
}
