// Laws of the definition of a capture of blocks. Each function does nothing: its contract is the law.
ghost use Rattle.std.specs.Prelude.{◌≡◌, ◌^◌, ◌≤◌, List, None, Ok, All, length, map, true};
ghost use Rattle.capture_io.specs.declared.forms.Rec.{Rec as Record};
ghost use Rattle.capture_io.specs.Written.{TimedPacket, timed, written_form};
ghost use Rattle.pcapng_io.specs.Captures.{form_of, IsCapture};
ghost use Rattle.pcapng_io.specs.Seen.{Seen};
ghost use Rattle.pcapng_io.specs.Spelled.{blocks_bytes, IsWritable};

/// A file that was written is read back: its header says plain IP and times in nanoseconds, the records have the packets with
/// their times, and then it ends.
pub fn blocks_are_read()
    ensures { (packets : List TimedPacket) → All IsWritable packets → length packets ≤ 2 ^ 31 →
        (seen : Seen) × (rs : List Record) × IsCapture (blocks_bytes packets) (Ok seen) rs None
        × (form_of seen.known ≡ written_form true) × (map timed rs ≡ packets) }
{}
