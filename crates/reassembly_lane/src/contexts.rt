// The contexts of a lane, by their keys.
ghost use Rattle.std.specs.Prelude.{◌≡◌, IfOk, None, OnErr, length};
ghost use Rattle.std.specs.Map.{lookup};
ghost use Rattle.std.specs.Option.{option_map};
ghost use Rattle.std.specs.BTreeMap.{is_at};
ghost use Rattle.reassembly_lane.specs.Contexts.{with_part};
ghost use Rattle.reassembly_lane.specs.Lanes.{among, answering, arrival, beginning, fragment_of, fresh, going_on, late_numbers, open_at, part_of, waits};
ghost use Rattle.reassembly_lane.specs.Since.{Since};
ghost use Rattle.reassembly_lane.specs.Sound.{IsSoundPart};

use crate::answer::{Answer, FragBad};
use crate::context::{Context, Turn};
use crate::piece::{Fragment, Piece};
use aftr_base::OutOfMemory;
use std::alloc::Global;
use std::collections::BTreeMap;

/// How long a datagram waits after its first piece, in nanoseconds.
const WAITING_TIME: u64 = 60_000_000_000;

/// How many datagrams wait in a lane.
const MOST_CONTEXTS: usize = 256;

/// Whether a datagram that began then still waits.
pub(crate) fn waits(time: u64, begun: u64) -> bool
    ensures { result ≡ waits time begun }
{
    time.saturating_sub(begun) <= WAITING_TIME
}

/// What a piece does among the contexts, of which so many are late and count no more. None of the others began before
/// `oldest`, which falls where a datagram begins.
pub(crate) fn feed_among<K: Ord + Copy + Drop>(
    alloc: Global,
    contexts: &mut BTreeMap<K, Context>,
    oldest: &mut u64,
    late: usize,
    piece: Piece<'_, K>,
) -> Result<Answer, OutOfMemory>
    requires late { late ≡ length (late_numbers piece.time contexts.old.entries) }
    requires oldest { Since oldest.old (open_at piece.time contexts.old.entries) }
    ensures fed { IfOk result (λ answer. answering answer contexts.new.entries ≡ among K.cmp contexts.old.entries (arrival piece.entry)) }
    ensures oldest { IfOk result (λ _. Since oldest.new (open_at piece.entry.time contexts.new.entries)) }
    ensures err { OnErr result (contexts.new.entries ≡ contexts.old.entries) }
    ensures same { OnErr result (oldest.new ≡ oldest.old) }
{
    let count = contexts.len();
    let fragment = piece.fragment();
    if fragment.is_odd() {
        return Ok(Answer::Refused(FragBad::Odd));
    }
    if fragment.is_long() {
        return Ok(Answer::Refused(FragBad::Long));
    }
    match go_on(alloc, contexts, piece.key, piece.time, fragment)? {
        Some(answer) => return Ok(answer),
        None => {}
    }
    let waiting = count - late;
    if waiting >= MOST_CONTEXTS {
        return Ok(Answer::Refused(FragBad::Full));
    }
    begin(alloc, contexts, oldest, piece)
}

/// One more piece of the datagram with the key, if it waits: the key is looked up once.
fn go_on<K: Ord + Copy + Drop>(
    alloc: Global,
    contexts: &mut BTreeMap<K, Context>,
    key: K,
    time: u64,
    fragment: Fragment<'_>,
) -> Result<Option<Answer>, OutOfMemory>
    requires { IsSoundPart (part_of fragment) }
    ensures goes_on { IfOk result (λ said. option_map (λ answer. answering answer contexts.new.entries) said
        ≡ option_map (λ partial. going_on K.cmp contexts.old.entries key (with_part partial (part_of fragment.entry)))
        (lookup (is_at (K.cmp key)) (open_at time contexts.old.entries))) }
    ensures none { IfOk result (λ answer. answer ≡ None → contexts.new.entries ≡ contexts.old.entries) }
    ensures err { OnErr result (contexts.new.entries ≡ contexts.old.entries) }
{
    let Some(context) = contexts.get_mut(&key) else {
        return Ok(None);
    };
    if !waits(time, context.begun()) {
        return Ok(None);
    }
    match context.take(alloc, fragment)? {
        Turn::Stays(answer) => Ok(Some(answer)),
        Turn::Ends(answer) => {
            let _ended = contexts.remove(&key);
            Ok(Some(answer))
        }
    }
}

/// The first piece of a datagram.
fn begin<K: Ord + Copy + Drop>(
    alloc: Global,
    contexts: &mut BTreeMap<K, Context>,
    oldest: &mut u64,
    piece: Piece<'_, K>,
) -> Result<Answer, OutOfMemory>
    requires { IsSoundPart (part_of (fragment_of piece)) }
    ensures begins { IfOk result (λ answer. answering answer contexts.new.entries
        ≡ beginning K.cmp contexts.old.entries piece.entry.key (with_part (fresh piece.entry.time piece.entry.number) (part_of (fragment_of piece.entry)))) }
    ensures oldest { IfOk result (λ _. Since oldest.old (open_at piece.entry.time contexts.old.entries) →
        Since oldest.new (open_at piece.entry.time contexts.new.entries)) }
    ensures err { OnErr result (contexts.new.entries ≡ contexts.old.entries) }
    ensures same { OnErr result (oldest.new ≡ oldest.old) }
{
    let time = piece.time;
    let mut context = Context::new(alloc, time, piece.number);
    match context.take(alloc, piece.fragment())? {
        Turn::Stays(answer) => {
            let _late = contexts.insert(piece.key, context)?;
            *oldest = (*oldest).min(time);
            Ok(answer)
        }
        Turn::Ends(answer) => Ok(answer),
    }
}

/// Only the contexts whose time is not up stay.
pub(crate) fn forget<K: Ord + Drop>(contexts: &mut BTreeMap<K, Context>, time: u64)
    ensures { contexts.new.entries ≡ open_at time contexts.old.entries }
{
    contexts.retain(|_, context| waits(time, context.begun()));
}
