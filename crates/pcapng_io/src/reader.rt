// A reader of one pcapng file.
ghost use Rattle.std.specs.Prelude.{◌≡◌, ◌+◌, ◌^◌, ◌<◌, ◌≤◌, [], ◌∷◌, IfErr, IfOk, IsSome, drop, length, take};
ghost use Rattle.aftr_io.specs.Contents.{content, Told};
ghost use Rattle.aftr_io.specs.Outside.{OnlyReads};
ghost use Rattle.capture_io.specs.Answers.{Agrees, is_read_fault};
ghost use Rattle.capture_io.specs.Refusals.{RefusesHeader};
ghost use Rattle.capture_io.specs.declared.forms.CaptureError.TheVariants as error;
ghost use Rattle.pcapng_io.specs.Answers.{Continues, IsBeforePacket, IsBounded, IsInHeader, IsKept, IsNext};
ghost use Rattle.pcapng_io.specs.Captures.{as_plain, form_of, is_pcapng, next_in};
ghost use Rattle.pcapng_io.specs.Files.{IsFault, left_at};
ghost use Rattle.pcapng_io.specs.Seen.{IsSoundSeen, seen_by};
ghost use Rattle.pcapng_io.specs.Standing.{Opens, stands_in};
ghost use Rattle.capture_io.specs.Windows.{IsAtFront};

use crate::block::{Block, Known, Passed, read_block};
use crate::frame::SECTION;
use crate::interface::Interface;
use crate::record::find_record;
use crate::walk::behind_passed;
use aftr_io::{Reading, fill};
use capture_io::{CaptureError, Form, MOST_PIECE, Next, PLAIN_IP, Window, word};
use std::alloc::Global;
use std::marker::Model;

const NO_INTERFACES: [Interface; 0] = [];

const START: Known = Known {
    at: 0,
    big: false,
    link: None,
    seconds: 0,
    nanos: 0,
};

/// Whether a file begins as a pcapng file does, with the type of a section header. `ReadFault` comes only where a read of this
/// file failed in this call, at a place below 4.
pub fn is_ng<I: Reading>(alloc: Global, files: &mut I, name: &str) -> Result<bool, CaptureError>
    ensures told { IfOk result (λ is. Told (I.readable files.old).held (λ m. is ≡ is_pcapng (content m name.now))) }
    ensures total { IfErr result (λ e. IsFault e) }
    ensures reads { OnlyReads (is_read_fault result) name.now (λ place. place < 4) (I.readable files.old) (I.readable files.new) }
{
    let mut first = [0; 4];
    let count = fill(alloc, files, name, 0, &mut first)?;
    Ok(begins_section(&first[..count]))
}

pub(crate) fn begins_section(bytes: &[u8]) -> bool
    ensures { result ≡ is_pcapng bytes.now }
{
    bytes.len() >= 4 && word(false, bytes, 0) == SECTION
}

/// A reader of a pcapng file, which stands between two of its packets. It is seen as its place, the order and the interfaces
/// of its section, the first interface's link type and the time of the last packet, and the bytes that it read ahead.
#[derive(Drop)]
pub struct NgReader {
    pub(crate) known: Known,
    pub(crate) interfaces: Vec<Interface>,
    // what was read already of the bytes from the place on
    pub(crate) window: Window,
    // the most bytes of which a round takes nearly all
    pub(crate) fits: usize,
}

impl Model for NgReader {
    ghost use Rattle.pcapng_io.specs.Seen.{IsSoundSeen, seen_by};
    ghost use Rattle.pcapng_io.specs.Standing.{Standing};

    ghost Value = { Standing };

    ghost view = { λ r. record { seen = seen_by r.known r.interfaces.items; ahead = r.window.bytes } };

    ghost invariant = { λ r. IsSoundSeen (seen_by r.known r.interfaces.items) };
}

impl NgReader {
    /// Reads the file header: the blocks up to the first interface, or all blocks where there is none. `ReadFault` comes only
    /// where a read of this file failed in this call, before the end of that interface's block, where there is one.
    pub fn open<I: Reading>(
        alloc: Global,
        files: &mut I,
        name: &str,
    ) -> Result<NgReader, CaptureError>
        ensures told { Told (I.readable files.old).held (λ m. Opens result (content m name.now)) }
        ensures refused { IfErr result RefusesHeader }
        ensures reads { OnlyReads (is_read_fault result) name.now (IsInHeader (I.readable files.old).held name.now)
            (I.readable files.old) (I.readable files.new) }
    {
        NgReader::open_behind(alloc, files, name, Window::new(alloc))
    }

    /// The same, where the first bytes were read already: they are not read again.
    pub(crate) fn open_behind<I: Reading>(
        alloc: Global,
        files: &mut I,
        name: &str,
        mut window: Window,
    ) -> Result<NgReader, CaptureError>
        requires { IsAtFront (I.readable files.old).held name.now 0 window }
        ensures told { Told (I.readable files.old).held (λ m. Opens result (content m name.now)) }
        ensures refused { IfErr result RefusesHeader }
        ensures reads { OnlyReads (is_read_fault result) name.now (IsInHeader (I.readable files.old).held name.now)
            (I.readable files.old) (I.readable files.new) }
    {
        let mut known = START;
        'opening: loop {
            match read_block(alloc, files, name, known, &NO_INTERFACES, 0, &mut window)? {
                Block::End => return Ok(NgReader::without_interfaces(alloc, known, window)),
                // No packet is found without an interface.
                Block::Packet(_) => return Ok(NgReader::without_interfaces(alloc, known, window)),
                Block::Passed(passed) => {
                    known = behind_passed(known, passed);
                    if let Passed::Interface { interface, .. } = passed {
                        return NgReader::with_interface(alloc, known, interface, window);
                    }
                }
            }
        }
    }

    fn without_interfaces(alloc: Global, known: Known, window: Window) -> NgReader
        requires { known.nanos < 1000000000 }
        ensures { result ≡ record { seen = as_plain (seen_by known []); ahead = window.bytes } }
    {
        NgReader {
            known: Known {
                link: Some(PLAIN_IP),
                ..known
            },
            interfaces: Vec::new(alloc),
            window,
            fits: MOST_PIECE,
        }
    }

    fn with_interface(
        alloc: Global,
        known: Known,
        interface: Interface,
        window: Window,
    ) -> Result<NgReader, CaptureError>
        requires time { known.nanos < 1000000000 }
        requires counted { 0 < interface.ticks }
        requires linked { IsSome known.link }
        ensures is { IfOk result (λ reader. reader ≡ record { seen = seen_by known (interface ∷ []); ahead = window.bytes }) }
        ensures memory { IfErr result (λ e. e ≡ error.OutOfMemory) }
    {
        let mut interfaces = Vec::new(alloc);
        match interfaces.push(interface) {
            Ok(()) => Ok(NgReader {
                known,
                interfaces,
                window,
                fits: MOST_PIECE,
            }),
            Err(_) => Err(CaptureError::OutOfMemory),
        }
    }

    /// What is said of all records: numbers least significant byte first, times in nanoseconds, and the link type of the
    /// first interface, or 101 where there is none.
    pub fn form(&self) -> Form
        ensures { result ≡ form_of self.now.seen.known }
    {
        Form {
            big: false,
            nano: true,
            link: self.known.link.unwrap_or(PLAIN_IP),
        }
    }

    /// The packet of a number, counted from 0, as a record that ends where its block does; `End` where no packet is left; and
    /// otherwise the refusal of the first block that is refused. Where no packet is found the reader is as before. `ReadFault`
    /// comes only where a read of this file failed in this call, from the reader's place on, and before the end of the
    /// packet's block.
    pub fn next<I: Reading>(
        &mut self,
        alloc: Global,
        files: &mut I,
        name: &str,
        number: u32,
    ) -> Result<Next, CaptureError>
        requires { number ≤ 2 ^ 31 }
        ensures told { Told (I.readable files.old).held
            (λ m. IsNext result self.new.seen (next_in self.old.seen (left_at m name.now self.old.seen.known.at) number)) }
        ensures step { Told (I.readable files.old).held (λ m. Continues result self.old.seen self.new.seen (content m name.now) number) }
        ensures kept { IsKept result self.old.seen self.new.seen }
        ensures stands { Told (I.readable files.old).held (λ m. stands_in self.old (content m name.now) → stands_in self.new (content m name.now)) }
        ensures bounded { IsBounded result self.old.seen self.new.seen number }
        ensures reads { OnlyReads (is_read_fault result) name.now
            (IsBeforePacket (I.readable files.old).held name.now self.old.seen number) (I.readable files.old) (I.readable files.new) }
    {
        let kept = self.interfaces.len();
        self.window.clear();
        match find_record(
            alloc,
            files,
            name,
            self.known,
            &mut self.interfaces,
            number,
            &mut self.window,
        ) {
            Ok(Some(found)) => {
                drop_front(&mut self.interfaces, found.first);
                self.known = found.known;
                self.window.clear();
                Ok(Next::Rec(found.record))
            }
            Ok(None) => {
                self.interfaces.truncate(kept);
                self.window.clear();
                Ok(Next::End)
            }
            Err(error) => {
                self.interfaces.truncate(kept);
                self.window.clear();
                Err(error)
            }
        }
    }
}

fn drop_front(interfaces: &mut Vec<Interface>, count: usize)
    requires { count ≤ length interfaces.old.items }
    ensures { interfaces.new.items ≡ drop count interfaces.old.items }
{
    if count > 0 {
        interfaces.drain(..count);
    }
}
