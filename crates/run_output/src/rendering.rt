// What a round of records writes.
ghost use Rattle.std.specs.Prelude.{◌≡◌, ◌≤◌, ◌<◌, ◌+◌, ◌-◌, ◌*◌, ◌++◌, ◌^◌, ℕ, List, [], IfOk, IfErr, true, false};
ghost use Rattle.std.specs.Prelude.{flat_map, drop, length, slice_get, string_bytes, take, Some};
ghost use Rattle.std.specs.Thread.{IsSync};
ghost use Rattle.capture_io.specs.declared.forms.Rec.{Rec as Record};
ghost use Rattle.capture_io.specs.Packets.{packet_bytes};
ghost use Rattle.ip_codec.specs.declared.items.Item.{Item};
ghost use Rattle.item_stage.specs.Items.{items_in};
ghost use Rattle.item_stage.specs.declared.entries.Entry.{Entry};
ghost use Rattle.aftr_text.specs.Lines.{ended_text};
ghost use Rattle.run_output.specs.Cells.{ArePartsFrom, ArePartsUnless, CanBeSent, CanGoOn, FitsAt, IsMore};
ghost use Rattle.run_output.specs.Cells.{IsPart, IsPartUnless, IsFitting, IsSent, cells_in, chunk, shown};
ghost use Rattle.run_output.specs.Counting.{IsWithin, with_record};
ghost use Rattle.run_output.specs.Limiting.{HasAsked, IsLimited, rate_of};
ghost use Rattle.run_output.specs.Outputs.{Course, record_text, sent_unless};
ghost use Rattle.run_output.specs.Rendering.{AreFitting, IsCourseOf, IsRendered};
ghost use Rattle.verdict_core.specs.Fitting.{HasRoom};

use crate::counting::{count_parts, count_record};
use crate::limits::mark_limited;
use crate::lines::{push_ended_lines, push_record_line};
use crate::parts::{Part, Rendered};
use crate::rounds::{DrawnRound, Round, RoundRecords};
use aftr_base::OutOfMemory;
use aftr_text::{RecordNumber, Totals};
use capture_io::{Form, RecordView, Records, Written};
use error_limit::{Limiter, one_marking};
use item_stage::{Items, RoundItems};
use packet_render::{MOST_PACKETS, push_forwarded, push_packets};
use std::thread::{Threads, join_mut};
use verdict_core::Verdict;
use worker_gate::{Outcome, Outcomes};

/// Parts of fewer records than this cost more than they take off, since each part has a thread.
const FEW_RECORDS: usize = 8_192;

/// So many records are one part then, or the first one.
const ONE_PART: usize = 16_384;

/// Renders the records of a round by their outcomes: asks the limit about their errors, in the order of the records, and then writes
/// packets and lines in the parts of `rendered`, each by a thread of its own where there are records for several. What is written takes
/// the place of what stood in `rendered`, and the records are counted. After an error `rendered` and the limit say nothing, and the totals
/// are as they were.
pub fn render_round<R: Threads + Sync>(
    rt: &R,
    form: Form,
    written: Written,
    judged: &RoundRecords<'_>,
    limit: &mut Option<Limiter>,
    totals: &mut Totals,
    rendered: &mut Rendered,
) -> Result<(), OutOfMemory>
    requires same { length judged.now.items.now ≡ length judged.now.records.now }
    requires few { judged.now.start + length judged.now.records.now ≤ 2 ^ 31 }
    requires fitting { AreFitting judged.now.items.now judged.now.outcomes.now }
    requires within { IsWithin totals.old judged.now.start }
    ensures rendered { IfOk result (λ _. (c : Course) (taken : List Record) (before : List Entry) → length taken ≡ judged.now.start →
        IsCourseOf c form taken judged.now.records.now before judged.now.items.now judged.now.outcomes.now limit.old →
        IsLimited (rate_of limit.old) form (taken ++ judged.now.records.now) (before ++ judged.now.items.now) c →
        IsRendered c written judged.now.start judged.now.records.now judged.now.items.now totals.old totals.new rendered.new) }
    ensures asked { IfOk result (λ _. (c : Course) (taken : List Record) (before : List Entry) → length taken ≡ judged.now.start →
        IsCourseOf c form taken judged.now.records.now before judged.now.items.now judged.now.outcomes.now limit.old →
        HasAsked form (taken ++ judged.now.records.now) (before ++ judged.now.items.now) c limit.new) }
    ensures rate { IfOk result (λ _. rate_of limit.new ≡ rate_of limit.old) }
    ensures within { IfOk result (λ _. IsWithin totals.new (judged.now.start + length judged.now.records.now)) }
    ensures parts { length rendered.new ≡ length rendered.old }
    ensures failed { IfErr result (λ _. totals.new ≡ totals.old) }
{
    one_marking();
    let Rendered { parts, limited } = rendered;
    mark_limited(form, judged.records, judged.outcomes, limit, limited)?;
    let round = Round {
        form,
        written,
        start: judged.start,
        records: judged.records,
        items: judged.items,
        outcomes: judged.outcomes,
        limited: limited.as_slice(),
        size: part_size(judged.records.len(), parts.len()),
    };
    render_parts(rt, &round, parts);
    count_parts(parts, totals)?;
    Ok(())
}

// How many records a part has, where so many are left.
fn part_size(count: usize, parts: usize) -> usize
    requires some { 0 < parts }
    requires few { count ≤ 2 ^ 31 }
    ensures covers { count ≤ parts * result }
    ensures small { result ≤ 2 ^ 31 }
{
    let each = count.div_ceil(parts);
    if each < FEW_RECORDS {
        return ONE_PART;
    }
    each
}

// Renders all parts.
fn render_parts<R: Threads + Sync>(rt: &R, round: &Round<'_>, parts: &mut Vec<Part>)
    requires fitting { IsFitting round.now }
    requires some { 0 < length parts.old.items }
    requires few { length parts.old.items ≤ 16 }
    ensures parts { ArePartsUnless round.now.written round.now.size (cells_in round.now) parts.new.items }
    ensures count { length parts.new.items ≡ length parts.old.items }
{
    render_each(rt, round, parts.as_mut_slice());
}

// Renders each part, by a thread of its own where there are records for it.
fn render_each<R: Threads + Sync>(rt: &R, round: &Round<'_>, parts: &mut [Part])
    requires fitting { IsFitting round.now }
    requires few { length parts.old ≤ 16 }
    ensures parts { ArePartsUnless round.now.written round.now.size (cells_in round.now) parts.new }
    ensures count { length parts.new ≡ length parts.old }
{
    render_from(rt, round, 0, parts);
}

// The same from the part at a place on. One thread makes all the others: what a thread makes that was just made itself begins late.
#[cycle(beside)]
fn render_from<R: Threads + Sync>(rt: &R, round: &Round<'_>, place: usize, parts: &mut [Part])
    requires fitting { IsFitting round.now }
    requires few { place + length parts.old ≤ 16 }
    ensures parts { ArePartsFrom round.now.written round.now.size place (cells_in round.now) parts.new }
    ensures count { length parts.new ≡ length parts.old }
{
    let Some((first, others)) = parts.split_first_mut() else {
        return;
    };
    if are_left(round, place) {
        render_beside(rt, round, place, first, others);
    } else {
        render_part(round, place, first);
        render_from(rt, round, place + 1, others);
    }
}

// Whether there are records behind those of a part.
fn are_left(round: &Round<'_>, place: usize) -> bool
    requires place { place < 16 }
{
    (place + 1) * round.size < round.records.len()
}

// Renders the first part in a new thread, and the others beside it.
#[cycle(beside)]
fn render_beside<R: Threads + Sync>(
    rt: &R,
    round: &Round<'_>,
    place: usize,
    first: &mut Part,
    others: &mut [Part],
)
    requires fitting { IsFitting round.now }
    requires few { place + 1 + length others.old ≤ 16 }
    ensures first { IsPartUnless round.now.written (chunk round.now.size place (cells_in round.now)) first.new }
    ensures others { ArePartsFrom round.now.written round.now.size (place + 1) (cells_in round.now) others.new }
    ensures count { length others.new ≡ length others.old }
{
    let mut one = ||
        requires { (place < 16) × IsFitting round.now }
        ensures { IsPartUnless round.entry.now.written (chunk round.entry.now.size place (cells_in round.entry.now)) first.exit.now }
    { render_part(round, place, first) };
    let mut rest = ||
        requires { IsSync R.row × ((place + 1 + length others.now ≤ 16) × IsFitting round.now) }
        ensures { ArePartsFrom round.entry.now.written round.entry.now.size (place + 1) (cells_in round.entry.now) others.exit.now
            × (length others.exit.now ≡ length others.entry.now) }
    { render_from(rt, round, place + 1, others) };
    join_mut(rt, &mut one, &mut rest);
}

// Renders the records of one part.
fn render_part(round: &Round<'_>, place: usize, part: &mut Part)
    requires fitting { IsFitting round.now }
    requires place { place < 16 }
    ensures { IsPartUnless round.now.written (chunk round.now.size place (cells_in round.now)) part.new }
{
    part.clear();
    let from = (place * round.size).min(round.records.len());
    let to = (from + round.size).min(round.records.len());
    let done = render_records(round, from, to, part);
    part.failed = done.is_err();
}

// Renders the records from a place on and before another, behind nothing.
fn render_records(
    round: &Round<'_>,
    from: usize,
    to: usize,
    part: &mut Part,
) -> Result<(), OutOfMemory>
    requires fitting { IsFitting round.now }
    requires order { from ≤ to }
    requires inside { to ≤ length round.now.records.now }
    requires empty { IsPart round.now.written [] part.old }
    ensures { IfOk result (λ _. IsPart round.now.written (take (to - from) (drop from (cells_in round.now))) part.new) }
{
    part.reserve(to - from)?;
    let drawn = DrawnRound {
        form: round.form,
        written: round.written,
        start: round.start,
        records: round.records,
        items: round.items,
    };
    let mut number = RecordNumber::of(round.start + from as u32);
    let mut i = from;
    'records: while i < to {
        let record = round.records.get(i);
        let outcome = round.outcomes.get(i);
        render_record(&drawn, i, &number, &record, outcome, round.limited[i], part)?;
        number.rise();
        i += 1;
    }
    Ok(())
}

// Puts what the record at an index of its round writes, under its number, behind what a part holds, and counts it.
pub(crate) fn render_record(
    round: &DrawnRound<'_>,
    index: usize,
    number: &RecordNumber,
    rec: &RecordView<'_>,
    outcome: &Outcome,
    limited: bool,
    part: &mut Part,
) -> Result<(), OutOfMemory>
    requires inside { index < length round.now.records.now }
    requires fits { FitsAt round.now.items.now index outcome.now.verdict }
    requires room { HasRoom outcome.now.verdict }
    requires within { IsWithin part.old.counted part.old.counted.records }
    requires few { part.old.counted.records < 2 ^ 31 }
    ensures more { IfOk result (λ _. (entry : Entry) → slice_get round.now.items.now index ≡ Some entry →
        IsMore round.now.written (shown number.now rec.now entry outcome.now limited) part.old part.new) }
    ensures within { IfOk result (λ _. IsWithin part.new.counted part.new.counted.records) }
{
    let count = push_sent(
        &mut part.packets,
        round,
        number.get(),
        index,
        rec,
        &outcome.verdict,
        limited,
    )?;
    push_ended_lines(&mut part.lines, true, round.items.ended(index))?;
    push_record_line(
        &mut part.lines,
        limited,
        number,
        outcome.version,
        &outcome.verdict,
        count,
    )?;
    count_record(&mut part.counted, &outcome.verdict, u64::from(count));
    Ok(())
}

// Puts the packets of one record behind others: none where its error is kept back. Of an item whose packet goes on no more is
// asked for than that packet.
fn push_sent(
    packets: &mut Vec<u8>,
    round: &DrawnRound<'_>,
    number: u32,
    index: usize,
    rec: &RecordView<'_>,
    verdict: &Verdict,
    limited: bool,
) -> Result<u32, OutOfMemory>
    requires { CanBeSent round.now index verdict.now }
    ensures bytes { IfOk result (λ _. (i : Item) → slice_get (items_in round.now.items.now) index ≡ Some i → packets.new.items ≡ packets.old.items
        ++ flat_map (packet_bytes round.now.written rec.now.seconds rec.now.fraction) (sent_unless limited i verdict.now number)) }
    ensures count { IfOk result (λ count. (i : Item) → slice_get (items_in round.now.items.now) index ≡ Some i →
        count ≡ length (sent_unless limited i verdict.now number)) }
    ensures few { IfOk result (λ count. count ≤ MOST_PACKETS) }
{
    let (seconds, fraction) = (rec.seconds, rec.fraction);
    if limited {
        return Ok(0);
    }
    if let Verdict::Outward { .. } = verdict {
        return push_packet(packets, round, number, index, seconds, fraction, verdict);
    }
    if let Verdict::Inward { .. } = verdict {
        return push_apart(packets, round, number, index, seconds, fraction, verdict);
    }
    push_item(packets, round, number, index, seconds, fraction, verdict)
}

// Puts the packets of a record there by its item. Nothing of it is made for a packet that goes on, so it stands apart.
#[inline(never)]
fn push_item(
    packets: &mut Vec<u8>,
    round: &DrawnRound<'_>,
    number: u32,
    index: usize,
    seconds: u32,
    fraction: u32,
    verdict: &Verdict,
) -> Result<u32, OutOfMemory>
    requires { CanBeSent round.now index verdict.now }
    ensures { IfOk result (IsSent round.now number index seconds fraction verdict.now packets.old.items packets.new.items) }
{
    let item = round.items.item(index);
    let count = push_packets(
        packets,
        round.written,
        &item,
        verdict,
        number,
        seconds,
        fraction,
    )?;
    Ok(count)
}

// The same as `push_packet`, out of the way of packets that go out: what is made for the tunnel would take their registers.
#[inline(never)]
fn push_apart(
    packets: &mut Vec<u8>,
    round: &DrawnRound<'_>,
    number: u32,
    index: usize,
    seconds: u32,
    fraction: u32,
    verdict: &Verdict,
) -> Result<u32, OutOfMemory>
    requires { CanGoOn round.now index verdict.now }
    ensures { IfOk result (IsSent round.now number index seconds fraction verdict.now packets.old.items packets.new.items) }
{
    push_packet(packets, round, number, index, seconds, fraction, verdict)
}

// Puts the packets of a record there whose own packet goes on.
#[inline(always)]
fn push_packet(
    packets: &mut Vec<u8>,
    round: &DrawnRound<'_>,
    number: u32,
    index: usize,
    seconds: u32,
    fraction: u32,
    verdict: &Verdict,
) -> Result<u32, OutOfMemory>
    requires { CanGoOn round.now index verdict.now }
    ensures { IfOk result (IsSent round.now number index seconds fraction verdict.now packets.old.items packets.new.items) }
{
    let packet = round.items.packet(index);
    let count = push_forwarded(
        packets,
        round.written,
        &packet,
        verdict,
        number,
        seconds,
        fraction,
    )?;
    Ok(count)
}
