//! A gate that holds a job that applies between an update and the showing of it.

use crate::bounded_wait::BoundedWait;
use crossbeam_utils::atomic::AtomicCell;
use dn_io::{Gate, Point};

/// A gate that keeps job 2 before its first update until job 1 has its first pin, job 1 after that pin until job 2 has
/// applied the update, and job 2 then until job 1 has its second pin: the update is in the history by then, and isn't
/// shown.
#[derive(Drop)]
pub(crate) struct ReadGate {
    is_pinned: AtomicCell<bool>,
    is_applied: AtomicCell<bool>,
    is_pinned_again: AtomicCell<bool>,
    pub(crate) wait: BoundedWait,
}

impl ReadGate {
    /// A gate at which no job was yet.
    pub(crate) fn new() -> ReadGate {
        ReadGate {
            is_pinned: AtomicCell::new(false),
            is_applied: AtomicCell::new(false),
            is_pinned_again: AtomicCell::new(false),
            wait: BoundedWait::new(),
        }
    }

    /// Job 1 has a pin.
    fn after_pin(&self) {
        if self.is_pinned.swap(true) {
            self.is_pinned_again.store(true);
        } else {
            self.wait.hold(&self.is_applied);
        }
    }

    /// Job 2 applied an update.
    fn after_apply(&self) {
        let is_later = self.is_applied.swap(true);
        if !is_later {
            self.wait.hold(&self.is_pinned_again);
        }
    }
}

impl Gate for ReadGate {
    fn at(&self, job: u32, point: Point) {
        match (job, point) {
            (1, Point::AfterPin) => self.after_pin(),
            (2, Point::BeforeApply) => self.wait.hold(&self.is_pinned),
            (2, Point::AfterApply) => self.after_apply(),
            _ => {}
        }
    }
}
