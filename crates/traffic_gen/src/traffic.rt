// The capture and its two tables.
ghost use Rattle.std.specs.Prelude.{◌≡◌, ◌≤◌, IfOk};
ghost use Rattle.traffic_gen.specs.Traffic.{capture_of, table_from};

use crate::generator::{drawn, turned};
use crate::packets::push_record;
use crate::subscribers::table_from;
use aftr_base::{Bytes, OutOfMemory};
use binding_rules::Table;
use capture_io::{FILE_HEADER_LEN, put_header};
use std::alloc::Global;

// How many bytes the longest record has.
const RECORD_LEN: usize = 88;

// The first subscriber of the second table.
const SECOND_FIRST: u32 = 64;

/// A capture, and the tables before and after the one change that its run makes.
#[derive(Debug, Drop)]
pub struct Traffic {
    /// Little-endian, in microseconds, of plain IP, a record each millisecond.
    pub capture: Bytes,
    /// The table of all 256 subscribers.
    pub first: Table,
    /// The table without the first 64 of them.
    pub second: Table,
}

/// The traffic of a seed, in `count` records. `OutOfMemory` comes where the allocator has no room for the capture, which has
/// at most 88 bytes a record and 24 before them, or for the test of a table.
pub fn traffic_of(alloc: Global, seed: u64, count: u32) -> Result<Traffic, OutOfMemory>
    requires some { 1 ≤ count }
    requires most { count ≤ 1000000 }
    ensures capture { IfOk result (λ traffic. traffic.capture ≡ capture_of seed count) }
    ensures first { IfOk result (λ traffic. traffic.first ≡ table_from 0) }
    ensures second { IfOk result (λ traffic. traffic.second ≡ table_from 64) }
{
    Ok(Traffic {
        capture: capture_of(alloc, seed, count)?,
        first: table_from(alloc, 0)?,
        second: table_from(alloc, SECOND_FIRST)?,
    })
}

fn capture_of(alloc: Global, seed: u64, count: u32) -> Result<Bytes, OutOfMemory>
    requires { count ≤ 1000000 }
    ensures { IfOk result (λ bytes. bytes ≡ capture_of seed count) }
{
    let mut list = Vec::with_capacity(alloc, FILE_HEADER_LEN + RECORD_LEN * count as usize)?;
    list.extend_from_slice(&put_header(false))?;
    let mut state = seed;
    'records: for number in 0..count {
        state = turned(state);
        push_record(&mut list, number, drawn(state))?;
    }
    Ok(Bytes::of(list))
}
