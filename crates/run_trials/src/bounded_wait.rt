//! A wait of one job for another, which a gate makes: it ends in any case, and tells whether it was in vain.

use crossbeam_utils::atomic::AtomicCell;

/// A job is held for at most so many turns.
const MOST_TURNS: u32 = 1_000_000_000;

/// The waits of jobs at a gate, each for another job's sign.
#[derive(Drop)]
pub(crate) struct BoundedWait {
    ran_out: AtomicCell<bool>,
}

impl BoundedWait {
    /// No job has waited yet.
    pub(crate) fn new() -> BoundedWait {
        BoundedWait {
            ran_out: AtomicCell::new(false),
        }
    }

    /// Whether some wait ran out.
    pub(crate) fn ran_out(&self) -> bool {
        self.ran_out.load()
    }

    /// Waits for another job's sign, for a bounded number of turns.
    pub(crate) fn hold(&self, sign: &AtomicCell<bool>) {
        for _turn in 0..MOST_TURNS {
            if sign.load() {
                return;
            }
        }
        self.ran_out.store(true);
    }

    /// Waits until another job was somewhere so often, for a bounded number of turns.
    pub(crate) fn hold_until(&self, count: &AtomicCell<u32>, least: u32) {
        for _turn in 0..MOST_TURNS {
            if least <= count.load() {
                return;
            }
        }
        self.ran_out.store(true);
    }
}
