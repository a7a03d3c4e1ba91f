// The file header of a capture.
ghost use Rattle.std.specs.Prelude.{◌≡◌, ◌++◌, ◌<◌, ◌≤◌, IfErr, IfOk, IsTrue, length, take};
ghost use Rattle.aftr_io.specs.Contents.{content, Told};
ghost use Rattle.aftr_io.specs.Outside.{OnlyReads};
ghost use Rattle.capture_io.specs.Answers.{Agrees, is_read_fault};
ghost use Rattle.capture_io.specs.Header.{has_magic, header_in, is_known_link};
ghost use Rattle.capture_io.specs.Refusals.{RefusesHeader};
ghost use Rattle.capture_io.specs.Written.{header_bytes};

use crate::words::{half, word};
use crate::{CaptureBad, CaptureError, Form};
use aftr_base::OutOfMemory;
use aftr_io::{Reading, fill};
use std::alloc::Global;

/// How many bytes the file header has; the first record stands behind them.
pub const FILE_HEADER_LEN: usize = 24;

const MAGIC_MICRO: u32 = 0xa1b2c3d4;

const MAGIC_NANO: u32 = 0xa1b23c4d;

/// The link type of Ethernet.
pub const ETHERNET: u32 = 1;

/// The link type of plain IP.
pub const PLAIN_IP: u32 = 101;

/// Reads the file header: what it says, or the first of these that is true: `CutHeader` at 0 for fewer than 24 bytes,
/// `Magic`, `Version`, `Link`. `ReadFault` comes only where a read of this file failed in this call, at a place below
/// 24. The first record stands at place 24.
pub fn read_header<I: Reading>(
    alloc: Global,
    files: &mut I,
    name: &str,
) -> Result<Form, CaptureError>
    ensures told { Told (I.readable files.old).held (λ m. Agrees result (header_in (content m name.now))) }
    ensures refused { IfErr result RefusesHeader }
    ensures link { IfOk result (λ form. IsTrue (is_known_link form.link)) }
    ensures reads { OnlyReads (is_read_fault result) name.now (λ place. place < 24) (I.readable files.old) (I.readable files.new) }
{
    let mut header = [0; FILE_HEADER_LEN];
    let count = fill(alloc, files, name, 0, &mut header)?;
    match form_of(&header[..count]) {
        Ok(form) => Ok(form),
        Err(refusal) => Err(CaptureError::Bad(refusal)),
    }
}

/// The same, where the first four bytes were read already, or as many of them as the file has: they are not read again.
pub fn read_header_behind<I: Reading>(
    alloc: Global,
    files: &mut I,
    name: &str,
    first: &[u8],
) -> Result<Form, CaptureError>
    requires first { Told (I.readable files.old).held (λ m. first.now ≡ take 4 (content m name.now)) }
    requires few { length first.now ≤ 4 }
    ensures told { Told (I.readable files.old).held (λ m. Agrees result (header_in (content m name.now))) }
    ensures refused { IfErr result RefusesHeader }
    ensures link { IfOk result (λ form. IsTrue (is_known_link form.link)) }
    ensures reads { OnlyReads (is_read_fault result) name.now (λ place. place < 24) (I.readable files.old) (I.readable files.new) }
{
    let mut rest = [0; FILE_HEADER_LEN - 4];
    let count = fill(alloc, files, name, first.len() as u64, &mut rest)?;
    let header = match joined(alloc, first, &rest[..count]) {
        Ok(header) => header,
        Err(_) => return Err(CaptureError::OutOfMemory),
    };
    match form_of(&header) {
        Ok(form) => Ok(form),
        Err(refusal) => Err(CaptureError::Bad(refusal)),
    }
}

fn joined(alloc: Global, first: &[u8], rest: &[u8]) -> Result<Vec<u8>, OutOfMemory>
    ensures { IfOk result (λ list. list.items ≡ first.now ++ rest.now) }
{
    let mut list = Vec::new(alloc);
    list.extend_from_slice(first)?;
    list.extend_from_slice(rest)?;
    Ok(list)
}

/// What the first bytes of a file say, as many of 24 as it has.
fn form_of(bytes: &[u8]) -> Result<Form, CaptureBad>
    ensures { result ≡ header_in bytes.now }
{
    if bytes.len() < FILE_HEADER_LEN {
        return Err(CaptureBad::CutHeader { at: 0 });
    }
    let big = is_magic(true, false, bytes) || is_magic(true, true, bytes);
    let nano = is_magic(false, true, bytes) || is_magic(true, true, bytes);
    if !(is_magic(false, false, bytes) || big || nano) {
        return Err(CaptureBad::Magic);
    }
    if half(big, bytes, 4) != 2 || half(big, bytes, 6) != 4 {
        return Err(CaptureBad::Version);
    }
    let link = word(big, bytes, 20);
    if link != ETHERNET && link != PLAIN_IP {
        return Err(CaptureBad::Link { number: link });
    }
    Ok(Form { big, nano, link })
}

fn is_magic(big: bool, nano: bool, bytes: &[u8]) -> bool
    requires { 4 ≤ length bytes.now }
    ensures { result ≡ has_magic big nano bytes.now }
{
    let magic = if nano { MAGIC_NANO } else { MAGIC_MICRO };
    word(big, bytes, 0) == magic
}

/// The file header of a capture that is written: little-endian, version 2.4, a snapshot length of 262,144, plain IP
/// (link type 101), and times in nanoseconds or in microseconds.
pub fn put_header(nano: bool) -> [u8; 24]
    ensures { result ≡ header_bytes nano }
{
    let magic = if nano { MAGIC_NANO } else { MAGIC_MICRO };
    let [m0, m1, m2, m3] = magic.to_le_bytes();
    [
        m0, m1, m2, m3, 2, 0, 4, 0, 0, 0, 0, 0, 0, 0, 0, 0, 0, 0, 4, 0, 101, 0, 0, 0,
    ]
}
