// The rings between the threads of a run, and how a thread sends and receives.
ghost use Rattle.std.specs.Prelude.{◌≡◌, ◌∷◌, ◌++◌, [], ◌⊎◌, IfSome, IsFalse, Option};
ghost use Rattle.rtrb.specs.Ring.{SameConsumer, SameProducer, received, sent};

use crate::traits::RoundBuffer;
use rtrb::{Consumer, Producer, Protocol, PushError};
use std::alloc::Global;
use std::hint::spin_loop;
use std::marker::PhantomData;
use std::sync::Wait;
use std::thread::{Parker, yield_now};

/// How often a thread looks for a value before it sleeps: some microseconds.
const LOOKS: u32 = 64;

/// What goes to a worker: rounds that were read.
#[derive(Drop)]
pub(crate) struct Filled<T> {
    of: PhantomData<T>,
}

impl<T: RoundBuffer> Protocol<Option<T>> for Filled<T> {
    ghost allows = { λ before x. IfSome x (λ t. T.filled t) };
}

/// What a worker gives: rounds that were judged.
#[derive(Drop)]
pub(crate) struct Judged<T> {
    of: PhantomData<T>,
}

impl<T: RoundBuffer> Protocol<Option<T>> for Judged<T> {
    ghost allows = { λ before x. IfSome x (λ t. T.judged t) };
}

/// A buffer that comes back from the writer, and whether the sink has ended.
#[derive(Drop)]
pub struct Returned<T> {
    pub buffer: T,
    pub over: bool,
}

/// What comes back from the writer: empty buffers until the sink ends, then also rounds that were not put.
#[derive(Drop)]
pub(crate) struct Emptied<T> {
    of: PhantomData<T>,
}

impl<T: RoundBuffer> Protocol<Returned<T>> for Emptied<T> {
    ghost allows = { λ before x. (IsFalse x.over → T.empty x.buffer) × (T.empty x.buffer ⊎ T.judged x.buffer) };
}

// Puts a value into the ring, and wakes whoever waits for it.
pub(crate) fn send<R: Wait, T: Drop, P: Protocol<T>>(
    rt: &R,
    end: &mut Producer<T, Global, P>,
    bell: &Parker,
    value: T,
)
    requires { P.allows (sent end.old) value }
    ensures same { SameProducer end.old end.new }
    ensures sent { sent end.new ≡ sent end.old ++ value ∷ [] }
{
    let mut value = value;
    'tries: for _ in rt.forever() {
        match end.push(value) {
            Ok(()) => {
                bell.unpark();
                return;
            }
            Err(PushError::Full(back)) => value = back,
        }
        yield_now();
    }
    unreachable!()
}

// Waits for the next value.
pub(crate) fn receive<R: Wait, T: Drop, P: Protocol<T>>(
    rt: &R,
    end: &mut Consumer<T, Global, P>,
    bell: &Parker,
) -> T
    ensures same { SameConsumer end.old end.new }
    ensures received { received end.new ≡ received end.old ++ result ∷ [] }
    ensures allowed { P.allows (received end.old) result }
{
    'waits: for _ in rt.forever() {
        'looks: for _ in 0..LOOKS {
            if let Ok(value) = end.pop() {
                return value;
            }
            spin_loop();
        }
        bell.park(rt);
    }
    unreachable!()
}

// No run comes here: what lies in two rings rules it out, but that is known only once both ends are in one hand.
pub(crate) fn stuck<R: Wait>(rt: &R)
    ensures { ⊥ }
{
    'never: for _ in rt.forever() {
        yield_now();
    }
    unreachable!()
}
