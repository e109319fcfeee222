//! Clocks and gates for tests.
use span_scans::workers::Gate;
use span_truetime::clock::Clock;
use span_truetime::interval::Interval;
use std::sync::atomic::{AtomicU64, Ordering};
use std::thread;

/// A clock that always reads the same.
#[derive(Drop)]
pub struct Still {
    /// What it reads.
    pub reading: Interval,
}

impl Clock for Still {
    ghost may_give = { λ _ _. Unit {0} };

    fn now(&self) -> Interval {
        self.reading
    }
}

/// A gate that does nothing.
pub struct OpenGate;

impl Gate for OpenGate {
    fn before_scan(&self, leaf: usize, slot: usize) {
        let _ = (leaf, slot);
    }

    fn in_scan(&self, leaf: usize, slot: usize) {
        let _ = (leaf, slot);
    }

    fn after_scan(&self, leaf: usize, slot: usize) {
        let _ = (leaf, slot);
    }
}

// The number of readings after which the clock begins again.
const SHARED_READINGS: u64 = 1 << 40;

/// A clock that threads share, whose n-th reading is [100 n, 100 n + 10].
#[derive(Drop)]
pub struct SharedClock {
    readings: AtomicU64,
}

impl SharedClock {
    /// A clock that was not read yet.
    pub fn new() -> SharedClock {
        SharedClock {
            readings: AtomicU64::new(0),
        }
    }

    /// How often it was read.
    pub fn readings(&self) -> u64 {
        self.readings.load(Ordering::SeqCst)
    }
}

impl Clock for SharedClock {
    ghost may_give = { λ _ _. Unit {0} };

    fn now(&self) -> Interval {
        let n = self.readings.fetch_add(1, Ordering::SeqCst) % SHARED_READINGS + 1;
        Interval {
            earliest: 100 * n,
            latest: 100 * n + 10,
        }
    }
}

// How often a scan looks for the other one, before it goes on alone.
const LOOKS: u64 = 1_000_000;

/// A gate where a scan waits for a second one, with the lock of its slot held.
#[derive(Drop)]
pub struct Meeting {
    arrived: AtomicU64,
    met: AtomicU64,
}

impl Meeting {
    /// A gate where no scan has come.
    pub fn new() -> Meeting {
        Meeting {
            arrived: AtomicU64::new(0),
            met: AtomicU64::new(0),
        }
    }

    /// How many scans have met another one.
    pub fn meetings(&self) -> u64 {
        self.met.load(Ordering::SeqCst)
    }
}

impl Gate for Meeting {
    fn before_scan(&self, leaf: usize, slot: usize) {
        let _ = (leaf, slot);
    }

    fn in_scan(&self, leaf: usize, slot: usize) {
        let _ = (leaf, slot);
        self.arrived.fetch_add(1, Ordering::SeqCst);
        for _ in 0..LOOKS {
            if self.arrived.load(Ordering::SeqCst) >= 2 {
                self.met.fetch_add(1, Ordering::SeqCst);
                break;
            }
            thread::yield_now();
        }
    }

    fn after_scan(&self, leaf: usize, slot: usize) {
        let _ = (leaf, slot);
    }
}

/// A gate where scans wait before they read, until another thread opens it.
#[derive(Drop)]
pub struct Turnstile {
    arrived: AtomicU64,
    opened: AtomicU64,
}

impl Turnstile {
    /// A gate that is closed.
    pub fn new() -> Turnstile {
        Turnstile {
            arrived: AtomicU64::new(0),
            opened: AtomicU64::new(0),
        }
    }

    /// Waits until a scan has come.
    pub fn wait(&self) {
        await_one(&self.arrived);
    }

    /// Lets all scans through.
    pub fn open(&self) {
        self.opened.store(1, Ordering::SeqCst);
    }
}

// Waits until the number is not 0, or for long enough.
fn await_one(number: &AtomicU64) {
    for _ in 0..LOOKS {
        if number.load(Ordering::SeqCst) > 0 {
            break;
        }
        thread::yield_now();
    }
}

impl Gate for Turnstile {
    fn before_scan(&self, leaf: usize, slot: usize) {
        let _ = (leaf, slot);
        self.arrived.store(1, Ordering::SeqCst);
        await_one(&self.opened);
    }

    fn in_scan(&self, leaf: usize, slot: usize) {
        let _ = (leaf, slot);
    }

    fn after_scan(&self, leaf: usize, slot: usize) {
        let _ = (leaf, slot);
    }
}
