//! A gate that holds a job that asks and a job that applies, step by step.

use crate::bounded_wait::BoundedWait;
use crossbeam_utils::atomic::AtomicCell;
use dn_io::{Gate, Point};

/// A gate that keeps job 2 before its first entry until job 1 has its first pin, after that entry until job 1 has its
/// second, and before its second entry, or after a pin of its own, until job 1 has its third; and job 1 after its first
/// and its second pin until job 2 stands at the next of these points. So the first entry is in the history at the second
/// pin, and isn't shown; at the third it is shown, and a second entry isn't there.
#[derive(Drop)]
pub(crate) struct ShownGate {
    pins: AtomicCell<u32>,
    points: AtomicCell<u32>,
    pub(crate) wait: BoundedWait,
}

impl ShownGate {
    /// A gate at which no job was yet.
    pub(crate) fn new() -> ShownGate {
        ShownGate {
            pins: AtomicCell::new(0),
            points: AtomicCell::new(0),
            wait: BoundedWait::new(),
        }
    }

    /// Job 1 has a pin.
    fn after_pin(&self) {
        let before = self.pins.fetch_add(1);
        if before < 2 {
            self.wait.hold_until(&self.points, before + 2);
        }
    }

    /// Job 2 is before an entry, or after it, or has a pin.
    fn at_point(&self) {
        let before = self.points.fetch_add(1);
        if before < 3 {
            self.wait.hold_until(&self.pins, before + 1);
        }
    }
}

impl Gate for ShownGate {
    fn at(&self, job: u32, point: Point) {
        match (job, point) {
            (1, Point::AfterPin) => self.after_pin(),
            (2, Point::BeforeApply) => self.at_point(),
            (2, Point::AfterApply) => self.at_point(),
            (2, Point::AfterPin) => self.at_point(),
            _ => {}
        }
    }
}
