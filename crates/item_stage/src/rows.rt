// The three rows of lanes.
ghost use Rattle.std.specs.Prelude.{◌≡◌, IfOk};
ghost use Rattle.item_stage.specs.Heads.{HaveHeaders};
ghost use Rattle.item_stage.specs.Turns.{all_waiting, no_rows};

use crate::keys::{DownKey, InnerKey, OuterKey};
use crate::row::{Row, ascending};
use aftr_base::{Numbers, OutOfMemory};
use std::alloc::Global;

/// Three rows of lanes.
#[derive(Debug, Drop)]
pub(crate) struct Rows {
    /// For fragments of tunnel packets.
    pub(crate) outer: Row<OuterKey>,
    /// For fragments of IPv4 datagrams in the tunnel.
    pub(crate) inner: Row<InnerKey>,
    /// For fragments of IPv4 datagrams from the IPv4 network.
    pub(crate) down: Row<DownKey>,
}

impl Rows {
    /// Rows in which nothing waits.
    pub(crate) fn new(alloc: Global) -> Result<Self, OutOfMemory>
        ensures none { IfOk result (λ rows. rows ≡ no_rows) }
        ensures headers { IfOk result (λ rows. HaveHeaders rows) }
    {
        Ok(Rows {
            outer: Row::new(alloc)?,
            inner: Row::new(alloc)?,
            down: Row::new(alloc)?,
        })
    }

    /// The first number of each datagram that waits, ascending.
    pub(crate) fn unfinished(&self, alloc: Global) -> Result<Numbers, OutOfMemory>
        ensures { IfOk result (λ numbers. numbers ≡ all_waiting self.now) }
    {
        let mut numbers = Vec::new(alloc);
        self.outer.push_numbers(alloc, &mut numbers)?;
        self.inner.push_numbers(alloc, &mut numbers)?;
        self.down.push_numbers(alloc, &mut numbers)?;
        Ok(ascending(numbers))
    }
}
