// Laws of the definition of a capture. Each function does nothing: its contract is the law.
ghost use Rattle.std.specs.Prelude.{◌≡◌, ℕ, ◌+◌, ◌^◌, ◌<◌, ◌≤◌, ◌++◌, Bool, List, length, drop, map, Option, None, Ok, All};
ghost use Rattle.capture_io.specs.declared.forms.Rec.{Rec as Record};
ghost use Rattle.capture_io.specs.declared.forms.CaptureBad.{CaptureBad as Refusal};
ghost use Rattle.capture_io.specs.declared.forms.Next.TheVariants as next;
ghost use Rattle.capture_io.specs.Record.{next_in};
ghost use Rattle.capture_io.specs.Capture.{IsCapture, Splits};
ghost use Rattle.capture_io.specs.Written.{IsRecordable, TimedPacket, recorded, spelled, timed, capture_bytes, written_form};

/// Bytes are split into records in one way, with one ending.
pub fn one_reading()
    ensures { (big : Bool) (left : List ℕ) (at number : ℕ) (rs others : List Record) (ending other : Option Refusal) →
        Splits big left at number rs ending → Splits big left at number others other →
        (rs ≡ others) × (ending ≡ other) }
{}

/// All bytes are split into records and an ending.
pub fn some_reading()
    ensures { (big : Bool) (left : List ℕ) (at number : ℕ) → (rs : List Record) × (ending : Option Refusal) × Splits big left at number rs ending }
{}

/// The next record stands behind a record's header, and so behind the record's own place.
pub fn records_rise()
    ensures { (big : Bool) (left : List ℕ) (at number : ℕ) (r : Record) → next_in big left at number ≡ Ok (next.Rec r) → at + 16 ≤ r.next_at }
{}

/// What is read is what is spelled. A record is found only where the bytes begin with its spelling, with some original
/// length; and it is found wherever they do, for a record of the count and length that a capture may have.
pub fn spelling_is_read()
    ensures only { (big : Bool) (left : List ℕ) (at number : ℕ) (r : Record) → All (λ byte. byte < 256) left →
        next_in big left at number ≡ Ok (next.Rec r) →
        (original : ℕ) × (left ≡ spelled big r.seconds r.fraction original r.bytes ++ drop (16 + length r.bytes) left) }
    ensures each { (big : Bool) (packet : TimedPacket) (original at number : ℕ) (rest : List ℕ) →
        IsRecordable packet → number < 2 ^ 31 →
        next_in big (spelled big packet.seconds packet.fraction original packet.packet ++ rest) at number
        ≡ Ok (next.Rec (recorded at packet)) }
{}

/// A capture that was written is read back: the records have the packets with their times, and then it ends.
pub fn written_is_read()
    ensures { (nano : Bool) (packets : List TimedPacket) → All IsRecordable packets → length packets ≤ 2 ^ 31 →
        (rs : List Record) × IsCapture (capture_bytes nano packets) (Ok (written_form nano)) rs None × (map timed rs ≡ packets) }
{}
