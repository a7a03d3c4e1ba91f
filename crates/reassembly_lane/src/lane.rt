// A lane of datagrams that wait for their fragments.
ghost use Rattle.std.specs.Prelude.{◌≡◌, [], List, IfOk, OnErr};
ghost use Rattle.reassembly_lane.specs.Lanes.{Arrival, answering, arrival, fed, first_numbers, late_numbers};
ghost use Rattle.reassembly_lane.specs.LaneHistory.{Follows, Remembers, past_first_numbers, waiting};
ghost use Rattle.reassembly_lane.specs.Numbers.{IsAscending};

use crate::answer::Fed;
use crate::context::Context;
use crate::contexts::{feed_among, forget, waits};
use crate::late::{all_numbers, ascending, late_at};
use crate::piece::Piece;
use aftr_base::{Numbers, OutOfMemory};
use std::alloc::Global;
use std::collections::BTreeMap;
use std::marker::Model;

/// Datagrams that wait for more of their fragments, at most 256 of at most 256 pieces each. Contracts see the list of
/// their keys, ascending, each with what is kept of the datagram.
#[derive(Debug, Drop)]
pub struct Lane<K: Ord> {
    contexts: BTreeMap<K, Context>,
    /// No context began before it.
    oldest: u64,
}

impl<K: Ord> Model for Lane<K> {
    ghost use Rattle.std.specs.Prelude.{List};
    ghost use Rattle.reassembly_lane.specs.Contexts.{Partial};
    ghost use Rattle.reassembly_lane.specs.Since.{Since};

    ghost Value = { List (K × Partial) };

    ghost view = { λ l. l.contexts.entries };

    ghost invariant = { λ l. Since l.oldest l.contexts.entries };
}

impl<K: Ord> Lane<K> {
    /// A lane in which nothing waits.
    pub fn new(alloc: Global) -> Self
        ensures empty { result ≡ [] }
        ensures history { Remembers K.cmp [] result }
    {
        Lane {
            contexts: BTreeMap::new(alloc),
            oldest: u64::MAX,
        }
    }

    /// The first piece's number of each datagram that waits, ascending.
    pub fn unfinished(&self, alloc: Global) -> Result<Numbers, OutOfMemory>
        ensures numbers { IfOk result (λ numbers. IsAscending (first_numbers self.now) numbers) }
        ensures history { IfOk result (λ numbers. (history : List (Arrival K)) → Remembers K.cmp history self.now
            → IsAscending (past_first_numbers (waiting K.cmp history)) numbers) }
    {
        Ok(ascending(all_numbers(alloc, &self.contexts)?))
    }
}

impl<K: Ord + Copy + Drop> Lane<K> {
    /// Takes one piece. First the datagrams are given up that began more than 60 seconds before it, whatever the answer;
    /// then a refusal is the first true one of `Odd`, `Long`, `Full` (for a datagram of which nothing waits), the earlier
    /// refusal of its datagram, `Overlap` and `Many`. A piece that came before, with the same offset, bytes and `more`, is
    /// `Held` and changes nothing. After `OutOfMemory` nothing has changed, and no datagram was given up.
    pub fn feed(&mut self, alloc: Global, piece: Piece<'_, K>) -> Result<Fed, OutOfMemory>
        ensures ended { IfOk result (λ said. IsAscending (late_numbers piece.entry.time self.old) said.ended) }
        ensures answer { IfOk result (λ said. answering said.answer self.new ≡ fed K.cmp self.old (arrival piece.entry)) }
        ensures history { IfOk result (λ said. (history : List (Arrival K)) → Remembers K.cmp history self.old
            → Follows K.cmp history (arrival piece.entry) said.answer said.ended self.new) }
        ensures err { OnErr result (self.new ≡ self.old) }
    {
        self.take(alloc, piece)
    }

    fn take(&mut self, alloc: Global, piece: Piece<'_, K>) -> Result<Fed, OutOfMemory>
        ensures ended { IfOk result (λ said. IsAscending (late_numbers piece.entry.time self.old) said.ended) }
        ensures answer { IfOk result (λ said. answering said.answer self.new ≡ fed K.cmp self.old (arrival piece.entry)) }
        ensures err { OnErr result (self.new ≡ self.old) }
    {
        if waits(piece.time, self.oldest) {
            self.take_in_time(alloc, piece)
        } else {
            self.take_late(alloc, piece)
        }
    }

    /// Where every context began in time, none is looked at but the piece's.
    fn take_in_time(&mut self, alloc: Global, piece: Piece<'_, K>) -> Result<Fed, OutOfMemory>
        requires { late_numbers piece.time self.old ≡ [] }
        ensures ended { IfOk result (λ said. IsAscending (late_numbers piece.entry.time self.old) said.ended) }
        ensures answer { IfOk result (λ said. answering said.answer self.new ≡ fed K.cmp self.old (arrival piece.entry)) }
        ensures err { OnErr result (self.new ≡ self.old) }
    {
        let answer = feed_among(alloc, &mut self.contexts, &mut self.oldest, 0, piece)?;
        Ok(Fed {
            ended: Numbers::of(Vec::new(alloc)),
            answer,
        })
    }

    fn take_late(&mut self, alloc: Global, piece: Piece<'_, K>) -> Result<Fed, OutOfMemory>
        ensures ended { IfOk result (λ said. IsAscending (late_numbers piece.entry.time self.old) said.ended) }
        ensures answer { IfOk result (λ said. answering said.answer self.new ≡ fed K.cmp self.old (arrival piece.entry)) }
        ensures err { OnErr result (self.new ≡ self.old) }
    {
        let time = piece.time;
        let late = late_at(alloc, &self.contexts, time)?;
        let mut oldest = late.oldest;
        let answer = feed_among(
            alloc,
            &mut self.contexts,
            &mut oldest,
            late.numbers.len(),
            piece,
        )?;
        forget(&mut self.contexts, time);
        self.oldest = oldest;
        Ok(Fed {
            ended: ascending(late.numbers),
            answer,
        })
    }
}
