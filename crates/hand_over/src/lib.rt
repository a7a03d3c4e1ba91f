//! Two threads that hand values to one another: one asks, the other answers, each in order.
#![tactic(auto)]

ghost use Rattle.std.specs.Prelude.{IfOk};
ghost use Rattle.hand_over.specs.Lines.{IsNewLine};

mod answerer;
mod asker;
mod bells;
mod ends;

pub use answerer::Answerer;
pub use asker::Asker;
pub use bells::Bells;
pub use rtrb::Protocol;
use rtrb::RingBuffer;
use std::alloc::{AllocError, Global};

/// How many values of each kind lie between the two sides at most.
const MOST_BETWEEN: usize = 2;

/// A line between two threads: the side that asks, and the side that answers. What may be asked `P` says.
pub fn line<'a, T: Drop, U: Drop, P: Protocol<T>>(
    alloc: Global,
    bells: &'a Bells,
) -> Result<(Asker<'a, T, U, P>, Answerer<'a, T, U, P>), AllocError>
    ensures { IfOk result (λ r. IsNewLine r.0 r.1) }
{
    let (asks, to_answer) = RingBuffer::with_protocol::<Global, P>(alloc, MOST_BETWEEN)?;
    let (gives, answers) = RingBuffer::new(alloc, MOST_BETWEEN)?;
    let asker = Asker {
        asks,
        answers,
        bells,
    };
    let answerer = Answerer {
        to_answer,
        gives,
        bells,
    };
    Ok((asker, answerer))
}
