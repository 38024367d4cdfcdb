//! A gate that holds each job for a while, so that jobs of a few lines run side by side.

use crossbeam_utils::atomic::AtomicCell;
use dn_io::{Gate, Point};

/// A gate that holds a job for a number of turns that looks drawn, at each point.
#[derive(Drop)]
pub(crate) struct SlowGate {
    met: AtomicCell<u32>,
}

impl SlowGate {
    /// A gate whose first numbers are those of a seed.
    pub(crate) fn new(seed: u32) -> SlowGate {
        SlowGate {
            met: AtomicCell::new(seed),
        }
    }
}

impl Gate for SlowGate {
    fn at(&self, _job: u32, _point: Point) {
        let met = self.met.fetch_add(1);
        for _turn in 0..(met.wrapping_mul(0x9E37_79B1) >> 18) {
            let _ = self.met.load();
        }
    }
}
