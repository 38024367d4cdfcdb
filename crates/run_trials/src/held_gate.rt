//! A gate that holds two jobs, each until the other has come so far.

use crate::bounded_wait::BoundedWait;
use crossbeam_utils::atomic::AtomicCell;
use dn_io::{Gate, Point};

/// A gate that keeps job 2 before its updates until job 1 has its first pin, and job 1 after its first pin until job 2
/// has an answer. Jobs that run one after another, and a lock that is held from a pin to its answer, make a wait run
/// out.
#[derive(Drop)]
pub(crate) struct HeldGate {
    is_pinned: AtomicCell<bool>,
    is_answered: AtomicCell<bool>,
    pub(crate) wait: BoundedWait,
}

impl HeldGate {
    /// A gate at which no job was yet.
    pub(crate) fn new() -> HeldGate {
        HeldGate {
            is_pinned: AtomicCell::new(false),
            is_answered: AtomicCell::new(false),
            wait: BoundedWait::new(),
        }
    }

    /// Job 1 has a pin.
    fn after_pin(&self) {
        let is_later = self.is_pinned.swap(true);
        if !is_later {
            self.wait.hold(&self.is_answered);
        }
    }
}

impl Gate for HeldGate {
    fn at(&self, job: u32, point: Point) {
        match (job, point) {
            (1, Point::AfterPin) => self.after_pin(),
            (2, Point::BeforeApply) => self.wait.hold(&self.is_pinned),
            (2, Point::AfterAnswer) => self.is_answered.store(true),
            _ => {}
        }
    }
}
