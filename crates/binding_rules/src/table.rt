// The table and its rules.
ghost use Rattle.std.specs.Prelude.{◌≡◌, ◌<◌, ◌^◌, IfOk, IfErr, IfNone, IfSome, length, vec_len};
ghost use Rattle.binding_rules.specs.Refusals.{IsCause, IsFirstRefusal, AtBoth};
ghost use Rattle.binding_rules.specs.Conflicts.{Conflict};
ghost use Rattle.binding_rules.specs.Scans.{IsConflictRefusal};
ghost use Rattle.binding_rules.specs.Tables.{IsValid, IsLawful, binding_table};
ghost use Rattle.binding_rules.specs.declared.settings.Edition.TheVariants as edition;
ghost use Rattle.binding_rules.specs.declared.settings.Softwire.{Softwire};

use crate::binding::Binding;
use crate::chains::have_one_shape;
use crate::conflicts::{Pair, first_conflict};
use crate::places::{places_refusal, settings_refusal};
use crate::refused::{Refused, TableError};
use crate::settings::{Edition, Softwire};
use aftr_base::OutOfMemory;
use std::alloc::Global;
use std::marker::Model;

/// How many bindings a table may have.
const MOST_BINDINGS: usize = 65536;

/// Settings and bindings that keep all rules, seen as the edition, the settings and the list of bindings.
#[derive(Debug, Drop)]
pub struct Table {
    edition: Edition,
    softwire: Softwire,
    bindings: Vec<Binding>,
}

impl Model for Table {
    ghost use Rattle.binding_rules.specs.Tables.{BindingTable, IsValid};

    ghost Value = { BindingTable };

    ghost view = { λ t. record { edition = t.edition; softwire = t.softwire; bindings = t.bindings.items } };

    ghost invariant = { λ t. IsValid (record { edition = t.edition; softwire = t.softwire; bindings = t.bindings.items }) };
}

impl Table {
    /// Which rule the bindings of one address keep.
    pub fn edition(&self) -> Edition
        ensures { result ≡ self.now.edition }
    {
        self.edition
    }

    /// The settings.
    pub fn softwire(&self) -> Softwire
        ensures value { result ≡ self.now.softwire }
        ensures valid { IsValid self.now }
        ensures lawful { IsLawful self.now }
    {
        self.softwire
    }

    /// The bindings, in the order given. No two of them own the same port of an address.
    pub fn bindings(&self) -> &[Binding]
        ensures value { result.now ≡ self.now.bindings }
        ensures valid { IsValid self.now }
        ensures lawful { IsLawful self.now }
    {
        &self.bindings
    }

    /// The same settings and bindings in edition Two, whose rules allow all that those of edition One do (ours). So it
    /// takes no memory and is never refused.
    pub fn into_edition_two(self) -> Table
        ensures table { result ≡ binding_table edition.Two self.softwire self.bindings }
        ensures valid { IsValid result }
    {
        Table {
            edition: Edition::Two,
            softwire: self.softwire,
            bindings: self.bindings,
        }
    }
}

/// The table of these settings and bindings. A refusal is the first true one in this order: `Mtu`, `Hop`, `TooMany`; for
/// each place ascending `Shape`, `Psid`, `OwnAddress`; then, of the bindings that conflict with an earlier one of the
/// same address, the first, with the first that it conflicts with (`MixedShape` where the edition is One and their
/// shapes differ, else `Twice`). The list is dropped on an error. `OutOfMemory` comes where the allocator has no room for
/// the test.
pub fn table_of(
    alloc: Global,
    edition: Edition,
    softwire: Softwire,
    bindings: Vec<Binding>,
) -> Result<Table, TableError>
    requires { vec_len bindings < 2 ^ 32 }
    ensures table { IfOk result (λ t. t ≡ record { edition = edition; softwire = softwire; bindings = bindings.items }) }
    ensures valid { IfOk result (λ t. IsValid t) }
    ensures cause { IfErr result (λ e. IsCause edition softwire bindings.items e) }
{
    if let Some(refused) = first_refusal(alloc, edition, &softwire, &bindings)? {
        return Err(TableError::Refused(refused));
    }
    Ok(Table {
        edition,
        softwire,
        bindings,
    })
}

/// The first true refusal.
fn first_refusal(
    alloc: Global,
    edition: Edition,
    softwire: &Softwire,
    bindings: &[Binding],
) -> Result<Option<Refused>, OutOfMemory>
    requires { length bindings.now < 2 ^ 32 }
    ensures valid { IfOk result (λ o. IfNone o (IsValid (binding_table edition softwire.now bindings.now))) }
    ensures first { IfOk result (λ o. IfSome o (λ r. IsFirstRefusal edition softwire.now bindings.now r)) }
{
    let refusal = settings_refusal(softwire);
    if refusal.is_some() {
        return Ok(refusal);
    }
    if bindings.len() > MOST_BINDINGS {
        return Ok(Some(Refused::TooMany {
            count: bindings.len() as u32,
        }));
    }
    let refusal = places_refusal(softwire.own, bindings);
    if refusal.is_some() {
        return Ok(refusal);
    }
    match first_conflict(alloc, edition, bindings)? {
        Some(pair) => Ok(Some(conflict_refusal(edition, bindings, pair))),
        None => Ok(None),
    }
}

/// The refusal of two bindings that conflict.
fn conflict_refusal(edition: Edition, bindings: &[Binding], pair: Pair) -> Refused
    requires { AtBoth bindings.now pair.first pair.second (Conflict edition) }
    ensures { (s : Softwire) → IsConflictRefusal edition s bindings.now pair result }
{
    let Pair { first, second } = pair;
    let x = bindings[first as usize];
    let y = bindings[second as usize];
    if edition == Edition::One && !have_one_shape(x, y) {
        Refused::MixedShape { first, second }
    } else {
        Refused::Twice { first, second }
    }
}
