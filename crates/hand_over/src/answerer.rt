// The side that answers.
ghost use Rattle.std.specs.Prelude.{◌≡◌, ◌∷◌, ◌++◌, [], IfSome, IfNone};
ghost use Rattle.hand_over.specs.Lines.{SameAnswerer, given, taken};

use crate::bells::Bells;
use crate::ends::{LOOKS, send};
use rtrb::{Consumer, Producer, Protocol};
use std::alloc::Global;
use std::hint::spin_loop;
use std::sync::Wait;

/// The side that answers.
#[derive(Drop)]
pub struct Answerer<'a, T: Drop, U: Drop, P: Protocol<T>> {
    pub(crate) to_answer: Consumer<T, Global, P>,
    pub(crate) gives: Producer<U>,
    pub(crate) bells: &'a Bells,
}

impl<'a, T: Drop, U: Drop, P: Protocol<T>> Answerer<'a, T, U, P> {
    /// Says that this side is at work. Where it is awaited no more, the answer is false, and nothing will be asked.
    pub fn begin(&self) -> bool {
        self.bells.begin()
    }

    /// Waits for the next question; there is none once nothing more is asked.
    pub fn take<R: Wait>(&mut self, rt: &R) -> Option<T>
        ensures same { SameAnswerer self.old self.new }
        ensures given { given self.new ≡ given self.old }
        ensures some { IfSome result (λ x. (taken self.new ≡ taken self.old ++ x ∷ []) × P.allows (taken self.old) x) }
        ensures none { IfNone result (taken self.new ≡ taken self.old) }
    {
        'waits: for _ in rt.forever() {
            'looks: for _ in 0..LOOKS {
                if let Ok(question) = self.to_answer.pop() {
                    return Some(question);
                }
                spin_loop();
            }
            if self.bells.is_over() {
                return None;
            }
            self.bells.answerer.park(rt);
        }
        unreachable!()
    }

    /// Answers. It waits only where two answers are not heard yet.
    pub fn answer<R: Wait>(&mut self, rt: &R, answer: U)
        ensures same { SameAnswerer self.old self.new }
        ensures given { given self.new ≡ given self.old ++ answer ∷ [] }
        ensures taken { taken self.new ≡ taken self.old }
    {
        send(rt, &mut self.gives, &self.bells.asker, answer)
    }
}
