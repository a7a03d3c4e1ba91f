// How the threads of a run wake one another. No clause says that a thread wakes.
use std::sync::Wait;
use std::sync::atomic::{AtomicU64, Ordering};
use std::thread::Parker;
use std::time::Duration;

/// No thread reads yet.
const WAITING: u64 = 0;

/// A thread reads.
const AT_WORK: u64 = 1;

/// The writer waits no more: nobody may begin to read.
const CALLED_OFF: u64 = 2;

/// How often the writer waits for a thread that reads, and how long each time: half a second in all.
const TURNS: u32 = 50;

const TURN_MILLIS: u64 = 10;

/// Wakes the threads of one line. One thread at a time sleeps on each bell.
#[derive(Drop)]
pub(crate) struct LineBells {
    pub(crate) worker: Parker,
    pub(crate) taker: Parker,
    pub(crate) writer: Parker,
}

impl LineBells {
    pub(crate) fn new() -> LineBells {
        LineBells {
            worker: Parker::new(),
            taker: Parker::new(),
            writer: Parker::new(),
        }
    }
}

/// Wakes the writer, and says whether somebody has begun to read.
#[derive(Drop)]
pub(crate) struct OrderBells {
    state: AtomicU64,
    pub(crate) writer: Parker,
}

impl OrderBells {
    pub(crate) fn new() -> OrderBells {
        OrderBells {
            state: AtomicU64::new(WAITING),
            writer: Parker::new(),
        }
    }

    // A thread is about to read. The answer is false if the writer has called the run off.
    pub(crate) fn begin(&self) -> bool {
        if self.state.load(Ordering::SeqCst) == AT_WORK {
            return true;
        }
        self.turn_to(AT_WORK);
        self.writer.unpark();
        self.state.load(Ordering::SeqCst) == AT_WORK
    }

    // Waits until a thread reads. If none does within half a second, the run is called off.
    pub(crate) fn wait_for_reader<R: Wait>(&self, rt: &R) -> bool {
        for _ in 0..TURNS {
            if self.state.load(Ordering::SeqCst) == AT_WORK {
                return true;
            }
            self.writer
                .park_timeout(rt, Duration::from_millis(TURN_MILLIS));
        }
        self.turn_to(CALLED_OFF);
        self.state.load(Ordering::SeqCst) == AT_WORK
    }

    // From waiting to another state, if it is waiting still.
    fn turn_to(&self, state: u64) {
        let _ = self
            .state
            .compare_exchange(WAITING, state, Ordering::SeqCst, Ordering::SeqCst);
    }
}
