// The ends of one ring, with a bell.
ghost use Rattle.std.specs.Prelude.{◌≡◌, ◌∷◌, ◌++◌, []};
ghost use Rattle.rtrb.specs.Ring.{SameConsumer, SameProducer, received, sent};

use rtrb::{Consumer, Producer, Protocol, PushError};
use std::alloc::Global;
use std::hint::spin_loop;
use std::sync::Wait;
use std::thread::{Parker, yield_now};

/// How often a side looks for a value before it sleeps: some microseconds.
pub(crate) const LOOKS: u32 = 64;

// Puts a value into the ring, and rings.
pub(crate) fn send<R: Wait, T: Drop, P: Protocol<T>>(
    rt: &R,
    end: &mut Producer<T, Global, P>,
    bell: &Parker,
    value: T,
)
    requires { P.allows (sent end.old) value }
    ensures same { SameProducer end.old end.new }
    ensures sent { sent end.new ≡ sent end.old ++ value ∷ [] }
{
    let mut value = value;
    'tries: for _ in rt.forever() {
        match end.push(value) {
            Ok(()) => {
                bell.unpark();
                return;
            }
            Err(PushError::Full(back)) => value = back,
        }
        yield_now();
    }
    unreachable!()
}

// Waits for the next value.
pub(crate) fn receive<R: Wait, T: Drop, P: Protocol<T>>(
    rt: &R,
    end: &mut Consumer<T, Global, P>,
    bell: &Parker,
) -> T
    ensures same { SameConsumer end.old end.new }
    ensures received { received end.new ≡ received end.old ++ result ∷ [] }
{
    'waits: for _ in rt.forever() {
        'looks: for _ in 0..LOOKS {
            if let Ok(value) = end.pop() {
                return value;
            }
            spin_loop();
        }
        bell.park(rt);
    }
    unreachable!()
}
