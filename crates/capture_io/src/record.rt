// The records of a capture.
ghost use Rattle.std.specs.Prelude.{◌≡◌, ◌+◌, ◌^◌, ◌≤◌, IfOk, length, take, drop};
ghost use Rattle.aftr_io.specs.Contents.{content, Told};
ghost use Rattle.aftr_io.specs.Outside.{OnlyReads};
ghost use Rattle.capture_io.specs.Answers.{Agrees, Continues, IsBeforeEnd, is_read_fault};
ghost use Rattle.capture_io.specs.Head.{head_in};
ghost use Rattle.capture_io.specs.Record.{IsBounded, nanoseconds, next_in};
ghost use Rattle.capture_io.specs.Written.{record_bytes};

use crate::words::word;
use crate::{CaptureBad, CaptureError, Form, Next, Rec};
use aftr_base::{Bytes, OutOfMemory};
use aftr_io::{Reading, bytes_at, fill};
use std::alloc::Global;

/// How many bytes a record's header has; its captured bytes stand behind them.
pub const RECORD_HEADER_LEN: usize = 16;

/// The most captured bytes of a record.
pub const MOST_BYTES: u32 = 262_144;

/// The most records of a capture.
pub const MOST_RECORDS: u32 = 0x8000_0000;

/// Reads the record of a number, counted from 0, which stands at the place `at`: the first at 24, each other at the
/// `next_at` of the record before it. `End` where no byte is left, and otherwise the record or the first of these that
/// is true: `TooMany` for number 2^31, `CutHeader` where fewer than 16 bytes are left, `TooLong` for a captured length
/// above 262,144, `CutRecord` where fewer bytes are left than that. `ReadFault` comes only where a read of this file
/// failed in this call, at a place from `at` on. The number is at most 2^31 and the place at most 2^62.
pub fn next_record<I: Reading>(
    alloc: Global,
    files: &mut I,
    name: &str,
    form: Form,
    at: u64,
    number: u32,
) -> Result<Next, CaptureError>
    requires number { number ≤ 2 ^ 31 }
    requires place { at ≤ 2 ^ 62 }
    ensures told { Told (I.readable files.old).held
        (λ m. Agrees result (next_in form.big (drop at (content m name.now)) at number)) }
    ensures step { Told (I.readable files.old).held
        (λ m. Continues result form.big (content m name.now) at number) }
    ensures bounded { IfOk result (λ next. IsBounded next at number) }
    ensures reads { OnlyReads (is_read_fault result) name.now
        (λ place. (at ≤ place) × IsBeforeEnd (I.readable files.old).held name.now form.big at number place)
        (I.readable files.old) (I.readable files.new) }
{
    let mut header = [0; RECORD_HEADER_LEN];
    let count = fill(alloc, files, name, at, &mut header)?;
    if count == 0 {
        return Ok(Next::End);
    }
    let head = match head_of(form.big, &header[..count], at, number) {
        Ok(head) => head,
        Err(refusal) => return Err(CaptureError::Bad(refusal)),
    };
    let bytes = bytes_at(alloc, files, name, at + 16, head.captured as usize)?;
    if bytes.as_slice().len() < head.captured as usize {
        return Err(CaptureError::Bad(CaptureBad::CutRecord { at }));
    }
    Ok(Next::Rec(Rec {
        seconds: head.seconds,
        fraction: head.fraction,
        bytes,
        next_at: at + 16 + u64::from(head.captured),
    }))
}

/// A record's header that is whole.
#[derive(Clone, Copy)]
pub struct Head {
    pub seconds: u32,
    pub fraction: u32,
    pub captured: u32,
}

fn head_of(big: bool, bytes: &[u8], at: u64, number: u32) -> Result<Head, CaptureBad>
    ensures { result ≡ head_in big bytes.now at number }
{
    if number == MOST_RECORDS {
        return Err(CaptureBad::TooMany { at });
    }
    if bytes.len() < RECORD_HEADER_LEN {
        return Err(CaptureBad::CutHeader { at });
    }
    let captured = word(big, bytes, 8);
    if captured > MOST_BYTES {
        return Err(CaptureBad::TooLong { at });
    }
    Ok(Head {
        seconds: word(big, bytes, 0),
        fraction: word(big, bytes, 4),
        captured,
    })
}

/// The time of a record in nanoseconds. The fraction is not tested: one second or more of it counts as it stands.
pub fn time_of(form: Form, seconds: u32, fraction: u32) -> u64
    ensures { result ≡ nanoseconds form seconds fraction }
{
    let unit = if form.nano { 1 } else { 1000 };
    u64::from(seconds) * 1_000_000_000 + u64::from(fraction) * unit
}

/// A record of a capture that is written: little-endian, the packet's length both as the captured and as the original
/// one. The packet has at most 65,575 bytes.
pub fn put_record(
    alloc: Global,
    seconds: u32,
    fraction: u32,
    packet: &[u8],
) -> Result<Bytes, OutOfMemory>
    requires { length packet.now ≤ 65575 }
    ensures { IfOk result (λ bytes. bytes ≡ record_bytes seconds fraction packet.now) }
{
    let captured = (packet.len() as u32).to_le_bytes();
    let original = captured;
    let mut list = Vec::with_capacity(alloc, RECORD_HEADER_LEN + packet.len())?;
    list.extend_from_slice(&seconds.to_le_bytes())?;
    list.extend_from_slice(&fraction.to_le_bytes())?;
    list.extend_from_slice(&captured)?;
    list.extend_from_slice(&original)?;
    list.extend_from_slice(packet)?;
    Ok(Bytes::of(list))
}
