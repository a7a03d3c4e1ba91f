// How each side wakes the other.
use std::sync::Wait;
use std::sync::atomic::{AtomicU64, Ordering};
use std::thread::Parker;
use std::time::Duration;

/// The side that answers has not begun.
const WAITING: u64 = 0;

/// It is at work.
const AT_WORK: u64 = 1;

/// Nothing more is asked.
const OVER: u64 = 2;

/// How often the side that asks waits for the other one's thread to begin, and how long each time: half a second in all.
const TURNS: u32 = 50;

const TURN_MILLIS: u64 = 10;

/// What the two sides of a line wake one another by. No clause says that a side wakes.
#[derive(Drop)]
pub struct Bells {
    state: AtomicU64,
    pub(crate) asker: Parker,
    pub(crate) answerer: Parker,
}

impl Bells {
    /// Bells that nobody has rung.
    pub fn new() -> Bells {
        Bells {
            state: AtomicU64::new(WAITING),
            asker: Parker::new(),
            answerer: Parker::new(),
        }
    }

    // The side that answers is at work: whether it is awaited still.
    pub(crate) fn begin(&self) -> bool {
        let awaited = self.turn_to(AT_WORK);
        self.asker.unpark();
        awaited
    }

    // Waits until the side that answers is at work. Where it has not begun by the last turn, it is awaited no more.
    pub(crate) fn wait_for_answerer<R: Wait>(&self, rt: &R) -> bool {
        for _ in 0..TURNS {
            if self.state.load(Ordering::SeqCst) == AT_WORK {
                return true;
            }
            self.asker
                .park_timeout(rt, Duration::from_millis(TURN_MILLIS));
        }
        !self.turn_to(OVER)
    }

    // Nothing more is asked.
    pub(crate) fn end(&self) {
        self.state.store(OVER, Ordering::SeqCst);
        self.answerer.unpark();
    }

    // Whether nothing more is asked.
    pub(crate) fn is_over(&self) -> bool {
        self.state.load(Ordering::SeqCst) == OVER
    }

    // From waiting to another state: whether it was waiting.
    fn turn_to(&self, state: u64) -> bool {
        self.state
            .compare_exchange(WAITING, state, Ordering::SeqCst, Ordering::SeqCst)
            .is_ok()
    }
}
