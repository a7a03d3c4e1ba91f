// The side that asks.
ghost use Rattle.std.specs.Prelude.{◌≡◌, ◌∷◌, ◌++◌, [], length};
ghost use Rattle.hand_over.specs.Lines.{IsLine, SameAsker, SameAnswerer, asked, given, heard, taken};

use crate::answerer::Answerer;
use crate::bells::Bells;
use crate::ends::{receive, send};
use rtrb::{Consumer, Producer, Protocol};
use std::alloc::Global;
use std::sync::Wait;

/// The side that asks. Dropped with its line.
#[derive(Drop)]
pub struct Asker<'a, T: Drop, U: Drop, P: Protocol<T>> {
    pub(crate) asks: Producer<T, Global, P>,
    pub(crate) answers: Consumer<U>,
    pub(crate) bells: &'a Bells,
}

impl<'a, T: Drop, U: Drop, P: Protocol<T>> Asker<'a, T, U, P> {
    /// Waits until the other side is at work, for half a second at most. Where no thread could be made for it, or the thread did not
    /// begin by then, the answer is false, and nothing may be asked.
    pub fn wait_for_answerer<R: Wait>(&self, rt: &R) -> bool {
        self.bells.wait_for_answerer(rt)
    }

    /// Says that nothing more is asked.
    pub fn end(&self) {
        self.bells.end()
    }

    /// Asks. It waits only where two questions are not taken yet.
    pub fn ask<R: Wait>(&mut self, rt: &R, question: T)
        requires { P.allows (asked self.old) question }
        ensures same { SameAsker self.old self.new }
        ensures asked { asked self.new ≡ asked self.old ++ question ∷ [] }
        ensures heard { heard self.new ≡ heard self.old }
    {
        send(rt, &mut self.asks, &self.bells.answerer, question)
    }

    /// Waits for the next answer.
    pub fn hear<R: Wait>(&mut self, rt: &R) -> U
        ensures same { SameAsker self.old self.new }
        ensures heard { heard self.new ≡ heard self.old ++ result ∷ [] }
        ensures asked { asked self.new ≡ asked self.old }
    {
        receive(rt, &mut self.answers, &self.bells.asker)
    }

    /// Both sides in one thread again: where each that was asked was answered, and each answer heard, the one took what the
    /// other asked, and heard what it gave.
    pub fn compare<'b>(&mut self, answerer: &mut Answerer<'b, T, U, P>)
        requires line { IsLine self.old answerer.old }
        requires all_heard { length (heard self.old) ≡ length (asked self.old) }
        requires all_answered { length (given answerer.old) ≡ length (taken answerer.old) }
        ensures asker { (asked self.new ≡ asked self.old) × (heard self.new ≡ heard self.old) }
        ensures took { taken answerer.old ≡ asked self.old }
        ensures gave { given answerer.old ≡ heard self.old }
    {
        answerer.to_answer.slots_beside(&mut self.asks);
        self.answers.slots_beside(&mut answerer.gives);
    }
}
