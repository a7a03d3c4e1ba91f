// What a record does to the rows of lanes.
ghost use Rattle.std.specs.Prelude.{◌≡◌, ◌<◌, [], ◌++◌, IfOk};
ghost use Rattle.ip_codec.specs.Packet4.{packet4};
ghost use Rattle.item_stage.specs.Alone.{behind_fragment, item_alone, item_inside};
ghost use Rattle.item_stage.specs.Fragments.{down_key, inner_key, lane_count, outer_key, part_of4, part_of6};
ghost use Rattle.item_stage.specs.Heads.{CanBeJoined, EachLane, HaveHeaders};
ghost use Rattle.item_stage.specs.Marks.{entry_by, outcome_item, marked, turning};
ghost use Rattle.item_stage.specs.Ordered.{ascending};
ghost use Rattle.item_stage.specs.Shown.{shown, shown_inside};
ghost use Rattle.item_stage.specs.Turns.{arriving, down_fed, down_item, inner_fed, outer_fed, rule_of, up_item, with_inner};
ghost use Rattle.item_stage.specs.Turns.{cut_turn, inside_turn, outer_turn, turn_of};
ghost use Rattle.item_stage.specs.Waiting.{row_fed, row_turn};
ghost use Rattle.item_stage.specs.declared.rows.Rows.{Rows as AllRows};
ghost use Rattle.reassembly_lane.specs.Lanes.{arrival};

use crate::alone::{Alone, Cut, Inside, behind_fragment};
use crate::joining::rejoin;
use crate::keys::{DownKey, InnerKey, OuterKey, lane_of};
use crate::marks::{Mark, Outcome};
use crate::row::{Row, merged};
use crate::rows::Rows;
use aftr_base::{Bytes, Numbers, OutOfMemory};
use ip_codec::{Outer, ReadPacket, Rule};
use reassembly_lane::{Answer, Fed, FragBad, Piece};
use std::alloc::Global;

/// When a record came.
#[derive(Clone, Copy)]
pub(crate) struct Moment {
    /// In nanoseconds.
    pub(crate) time: u64,
    /// The record's number.
    pub(crate) number: u32,
}

/// Gives what a record is by itself to the lanes. A mark says what comes of it where a lane took a fragment.
pub(crate) fn take(
    alloc: Global,
    rows: &mut Rows,
    at: Moment,
    alone: &Alone<'_>,
) -> Result<Option<Mark>, OutOfMemory>
    requires { HaveHeaders rows.old }
    ensures headers { IfOk result (λ _. HaveHeaders rows.new) }
    ensures turn { IfOk result (λ mark. turning rows.new (entry_by (item_alone (shown alone.now)) mark)
        ≡ turn_of rows.old at.time at.number (shown alone.now)) }
{
    match alone {
        Alone::Ready(_) => Ok(None),
        Alone::Downstream(packet) => Ok(Some(take_down(alloc, &mut rows.down, at, packet)?)),
        Alone::Cut(cut) => Ok(Some(take_cut(alloc, rows, at, cut)?)),
        Alone::Carries(inside) => take_carried(alloc, &mut rows.inner, at, inside),
    }
}

// A fragment from the IPv4 network.
fn take_down(
    alloc: Global,
    row: &mut Row<DownKey>,
    at: Moment,
    packet: &ReadPacket<'_>,
) -> Result<Mark, OutOfMemory>
    requires { EachLane row.old }
    ensures headers { IfOk result (λ _. EachLane row.new) }
    ensures row { IfOk result (λ _. row.new
        ≡ (down_fed row.old at.time at.number (down_key (packet4 packet.now.view)) (part_of4 (packet4 packet.now.view))).row) }
    ensures ended { IfOk result (λ mark. mark.ended
        ≡ (down_fed row.old at.time at.number (down_key (packet4 packet.now.view)) (part_of4 (packet4 packet.now.view))).ended) }
    ensures outcome { IfOk result (λ mark. outcome_item mark.outcome
        ≡ down_item (down_fed row.old at.time at.number (down_key (packet4 packet.now.view)) (part_of4 (packet4 packet.now.view))).answer) }
{
    let key = DownKey::of(&packet.view);
    let said = feed4(alloc, row, lane_of(u32::from(key.id)), key, at, packet)?;
    Ok(Mark {
        ended: said.ended,
        outcome: down_outcome(alloc, said.answer)?,
    })
}

fn down_outcome(alloc: Global, answer: Answer) -> Result<Outcome, OutOfMemory>
    requires { CanBeJoined answer }
    ensures item { IfOk result (λ outcome. outcome_item outcome ≡ down_item answer) }
{
    match answer {
        Answer::Held => Ok(Outcome::Held),
        Answer::Whole { head, body } => { Ok(Outcome::Down(rejoin(alloc, head.as_slice(), body)?)) }
        Answer::Refused(why) => Ok(Outcome::Bad(rule_of(why))),
    }
}

// What an IPv6 packet carries, whole or not cut.
fn take_carried(
    alloc: Global,
    row: &mut Row<InnerKey>,
    at: Moment,
    inside: &Inside<'_>,
) -> Result<Option<Mark>, OutOfMemory>
    requires { EachLane row.old }
    ensures headers { IfOk result (λ _. EachLane row.new) }
    ensures turn { IfOk result (λ mark. (rows : AllRows) → rows.inner ≡ row.old
        → turning (with_inner rows row.new) (entry_by (item_inside (shown_inside inside.now)) mark)
        ≡ inside_turn rows at.time at.number [] (shown_inside inside.now)) }
{
    match inside {
        Inside::Settled(_) => Ok(None),
        Inside::Fragment { outer, packet } => {
            let none = Numbers::of(Vec::new(alloc));
            Ok(Some(take_inside(alloc, row, at, none, *outer, packet)?))
        }
    }
}

// A fragment in the tunnel, of a record with which these datagrams ended.
fn take_inside(
    alloc: Global,
    row: &mut Row<InnerKey>,
    at: Moment,
    ended: Numbers,
    outer: Outer,
    packet: &ReadPacket<'_>,
) -> Result<Mark, OutOfMemory>
    requires { EachLane row.old }
    ensures headers { IfOk result (λ _. EachLane row.new) }
    ensures row { IfOk result (λ _. row.new
        ≡ (inner_fed row.old at.time at.number (inner_key outer (packet4 packet.now.view)) (part_of4 (packet4 packet.now.view))).row) }
    ensures ended { IfOk result (λ mark. mark.ended
        ≡ ascending (ended ++ (inner_fed row.old at.time at.number (inner_key outer (packet4 packet.now.view)) (part_of4 (packet4 packet.now.view))).ended)) }
    ensures outcome { IfOk result (λ mark. outcome_item mark.outcome
        ≡ up_item outer (inner_fed row.old at.time at.number (inner_key outer (packet4 packet.now.view)) (part_of4 (packet4 packet.now.view))).answer) }
{
    let key = InnerKey::of(&outer, &packet.view);
    let said = feed4(alloc, row, lane_of(u32::from(key.id)), key, at, packet)?;
    Ok(Mark {
        ended: merged(ended, &said.ended)?,
        outcome: up_outcome(alloc, outer, said.answer)?,
    })
}

fn up_outcome(alloc: Global, outer: Outer, answer: Answer) -> Result<Outcome, OutOfMemory>
    requires { CanBeJoined answer }
    ensures item { IfOk result (λ outcome. outcome_item outcome ≡ up_item outer answer) }
{
    match answer {
        Answer::Held => Ok(Outcome::Held),
        Answer::Whole { head, body } => Ok(Outcome::Up {
            outer,
            packet: rejoin(alloc, head.as_slice(), body)?,
        }),
        Answer::Refused(why) => Ok(Outcome::Bad(rule_of(why))),
    }
}

// A fragment of a tunnel packet.
fn take_cut(alloc: Global, rows: &mut Rows, at: Moment, cut: &Cut<'_>) -> Result<Mark, OutOfMemory>
    requires { HaveHeaders rows.old }
    ensures headers { IfOk result (λ _. HaveHeaders rows.new) }
    ensures turn { IfOk result (λ mark. turning rows.new (marked mark)
        ≡ cut_turn rows.old at.time at.number cut.now.outer (outer_fed rows.old.outer at.time at.number
        (outer_key cut.now.outer cut.now.id) (part_of6 cut.now.offset cut.now.more cut.now.next cut.now.body.now))) }
{
    let head = [cut.next];
    let piece = Piece {
        key: OuterKey::of(&cut.outer, cut.id),
        offset: cut.offset,
        more: cut.more,
        extra: 0,
        head: &head,
        body: cut.body,
        time: at.time,
        number: at.number,
    };
    let said = rows.outer.feed(alloc, lane_of(cut.id), piece)?;
    go_on(alloc, &mut rows.inner, at, cut.outer, said)
}

// What follows a tunnel packet's fragment, by its lane's answer.
fn go_on(
    alloc: Global,
    row: &mut Row<InnerKey>,
    at: Moment,
    outer: Outer,
    said: Fed,
) -> Result<Mark, OutOfMemory>
    requires { EachLane row.old }
    ensures headers { IfOk result (λ _. EachLane row.new) }
    ensures turn { IfOk result (λ mark. (rows : AllRows) → rows.inner ≡ row.old
        → turning (with_inner rows row.new) (marked mark) ≡ outer_turn rows at.time at.number said.ended outer said.answer) }
{
    let Fed { ended, answer } = said;
    match answer {
        Answer::Held => Ok(Mark {
            ended,
            outcome: Outcome::Held,
        }),
        Answer::Refused(why) => Ok(Mark {
            ended,
            outcome: Outcome::Bad(rule_of(why)),
        }),
        Answer::Whole { head, body } => {
            let next = head.as_slice().first().copied().unwrap_or(0);
            take_whole(alloc, row, at, ended, outer, next, body)
        }
    }
}

// A tunnel packet that is whole: what stood behind its Fragment headers.
fn take_whole(
    alloc: Global,
    row: &mut Row<InnerKey>,
    at: Moment,
    ended: Numbers,
    outer: Outer,
    next: u8,
    body: Bytes,
) -> Result<Mark, OutOfMemory>
    requires { EachLane row.old }
    ensures headers { IfOk result (λ _. EachLane row.new) }
    ensures turn { IfOk result (λ mark. (rows : AllRows) → rows.inner ≡ row.old
        → turning (with_inner rows row.new) (marked mark) ≡ inside_turn rows at.time at.number ended (behind_fragment outer next body)) }
{
    match behind_fragment(outer, next, body.as_slice()) {
        Inside::Fragment { outer, packet } => {
            return take_inside(alloc, row, at, ended, outer, &packet);
        }
        Inside::Settled(_) => {}
    }
    Ok(Mark {
        ended,
        outcome: Outcome::Carries { outer, next, body },
    })
}

// An IPv4 fragment in the lane of its datagram.
fn feed4<K: Ord + Copy + Drop>(
    alloc: Global,
    row: &mut Row<K>,
    lane: usize,
    key: K,
    at: Moment,
    packet: &ReadPacket<'_>,
) -> Result<Fed, OutOfMemory>
    requires lane { lane < lane_count }
    requires headers { EachLane row.old }
    ensures fed { IfOk result (λ said. row_turn said row.new
        ≡ row_fed K.cmp row.old lane (arriving key at.time at.number (part_of4 (packet4 packet.now.view)))) }
    ensures headers { IfOk result (λ _. EachLane row.new) }
    ensures joined { IfOk result (λ said. CanBeJoined said.answer) }
{
    Ok(row.feed(alloc, lane, piece_of(key, at, packet))?)
}

// An IPv4 fragment as a piece of its datagram. Of the first one the header is kept.
fn piece_of<'a, K: Copy>(key: K, at: Moment, packet: &ReadPacket<'a>) -> Piece<'a, K>
    ensures { arrival result ≡ arriving key at.time at.number (part_of4 (packet4 packet.now.view)) }
{
    Piece {
        key,
        offset: packet.view.offset,
        more: packet.view.mf,
        extra: packet.view.header.len() as u16,
        head: packet.view.header,
        body: packet.view.payload,
        time: at.time,
        number: at.number,
    }
}

// The rule of a refused fragment.
fn rule_of(why: FragBad) -> Rule
    ensures { result ≡ rule_of why }
{
    match why {
        FragBad::Odd => Rule::FragOdd,
        FragBad::Long => Rule::FragLong,
        FragBad::Overlap => Rule::FragOverlap,
        FragBad::Many => Rule::FragMany,
        FragBad::Full => Rule::FragFull,
    }
}
