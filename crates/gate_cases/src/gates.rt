// Gates that hold workers.
use std::sync::atomic::AtomicUsize;
use std::sync::atomic::Ordering::SeqCst;
use std::thread::yield_now;
use worker_gate::Gate;

// Whether the note is made within so many turns. The time slice is given up now and then.
fn comes(note: &AtomicUsize, turns: u32) -> bool {
    for turn in 0..turns {
        if note.load(SeqCst) == 1 {
            return true;
        }
        if turn % 4_096 == 0 {
            yield_now();
        }
    }
    false
}

/// Holds one record until another has passed, for so many turns, and notes where they ran out.
#[derive(Drop)]
pub struct Behind {
    held: u32,
    until: u32,
    passed: AtomicUsize,
    late: AtomicUsize,
}

impl Behind {
    /// Holds the record with the number `held` until that with the number `until` has passed.
    pub fn of(held: u32, until: u32) -> Behind {
        Behind {
            held,
            until,
            passed: AtomicUsize::new(0),
            late: AtomicUsize::new(0),
        }
    }

    /// Whether the turns ran out.
    pub fn was_late(&self) -> bool {
        self.late.load(SeqCst) != 0
    }
}

impl Gate for Behind {
    fn pass(&self, number: u32, _version: u32) {
        if number == self.until {
            self.passed.store(1, SeqCst);
        }
        if number == self.held {
            if !comes(&self.passed, 100_000_000) {
                self.late.store(1, SeqCst);
            }
        }
    }
}

/// Holds each record until a note is made, for a limited number of turns, and notes whether they ran out.
#[derive(Drop)]
pub struct UntilTold {
    told: AtomicUsize,
    late: AtomicUsize,
}

impl UntilTold {
    pub fn new() -> UntilTold {
        UntilTold {
            told: AtomicUsize::new(0),
            late: AtomicUsize::new(0),
        }
    }

    /// Makes the note.
    pub fn tell(&self) {
        self.told.store(1, SeqCst);
    }

    /// Whether the turns ran out.
    pub fn was_late(&self) -> bool {
        self.late.load(SeqCst) != 0
    }
}

impl Gate for UntilTold {
    fn pass(&self, _number: u32, _version: u32) {
        if !comes(&self.told, 100_000_000) {
            self.late.store(1, SeqCst);
        }
    }
}

/// Holds each record until a number of records have come, for a limited number of turns, and notes whether they ran out.
#[derive(Drop)]
pub struct Meeting {
    count: usize,
    came: AtomicUsize,
    late: AtomicUsize,
}

impl Meeting {
    pub fn of(count: usize) -> Meeting {
        Meeting {
            count,
            came: AtomicUsize::new(0),
            late: AtomicUsize::new(0),
        }
    }

    /// Whether the turns ran out.
    pub fn was_late(&self) -> bool {
        self.late.load(SeqCst) != 0
    }
}

impl Gate for Meeting {
    fn pass(&self, _number: u32, _version: u32) {
        self.came.fetch_add(1, SeqCst);
        for turn in 0..100_000_000 {
            if self.came.load(SeqCst) >= self.count {
                return;
            }
            if turn % 64 == 0 {
                yield_now();
            }
        }
        self.late.store(1, SeqCst);
    }
}

/// Holds each record of version 0, but record 0, until a record of version 1 has passed, for so many turns.
#[derive(Drop)]
pub struct UntilTheNext {
    passed: AtomicUsize,
}

impl UntilTheNext {
    pub fn new() -> UntilTheNext {
        UntilTheNext {
            passed: AtomicUsize::new(0),
        }
    }
}

impl Gate for UntilTheNext {
    fn pass(&self, number: u32, version: u32) {
        if version != 0 {
            self.passed.store(1, SeqCst);
            return;
        }
        if number == 0 {
            return;
        }
        let _came = comes(&self.passed, 1_000_000);
    }
}

/// Counts its calls, and adds up their numbers and versions.
#[derive(Drop)]
pub struct Adding {
    calls: AtomicUsize,
    numbers: AtomicUsize,
    versions: AtomicUsize,
}

impl Adding {
    pub fn new() -> Adding {
        Adding {
            calls: AtomicUsize::new(0),
            numbers: AtomicUsize::new(0),
            versions: AtomicUsize::new(0),
        }
    }

    /// How many calls there were, and the sums of their numbers and versions.
    pub fn sums(&self) -> (usize, usize, usize) {
        (
            self.calls.load(SeqCst),
            self.numbers.load(SeqCst),
            self.versions.load(SeqCst),
        )
    }
}

impl Gate for Adding {
    fn pass(&self, number: u32, version: u32) {
        self.calls.fetch_add(1, SeqCst);
        self.numbers.fetch_add(number as usize, SeqCst);
        self.versions.fetch_add(version as usize, SeqCst);
    }
}

/// Takes its time for each record of the first two versions.
#[derive(Drop)]
pub struct Slow {
    note: AtomicUsize,
}

impl Slow {
    pub fn new() -> Slow {
        Slow {
            note: AtomicUsize::new(0),
        }
    }
}

impl Gate for Slow {
    fn pass(&self, _number: u32, version: u32) {
        if version < 2 {
            for _ in 0..8_000 {
                let _note = self.note.load(SeqCst);
            }
        }
    }
}

/// Has no thread made for a worker, and notes whether two of them were in it at once.
#[derive(Drop)]
pub struct Alone {
    inside: AtomicUsize,
    met: AtomicUsize,
}

impl Alone {
    pub fn new() -> Alone {
        Alone {
            inside: AtomicUsize::new(0),
            met: AtomicUsize::new(0),
        }
    }

    /// Whether one came while another was inside.
    pub fn has_met_two(&self) -> bool {
        self.met.load(SeqCst) != 0
    }
}

impl Gate for Alone {
    fn pass(&self, _number: u32, _version: u32) {
        if self.inside.fetch_add(1, SeqCst) != 0 {
            self.met.store(1, SeqCst);
        }
        yield_now();
        self.inside.fetch_sub(1, SeqCst);
    }

    fn threads_from(&self) -> u32 {
        u32::MAX
    }
}
