//! What a reader keeps from frame to frame.

ghost use Rattle.std.specs.Prelude.{◌≡◌, []};

use crate::device::VrfHints;
use crate::port_hints::PortHints;
use dn_model::{List, Op, RouterId};
use std::alloc::Global;
use std::marker::Model;
use std::mem;

/// What a reader keeps from frame to frame, so that it need not make it anew for each: where interfaces and tables were
/// found last time, and a list whose memory the next frame may use. A contract sees nothing of it.
#[derive(Drop)]
pub struct Workspace {
    pub ports: PortHints,
    pub vrfs: VrfHints,
    ops: List<(RouterId, Op)>,
}

impl Model for Workspace {
    ghost Value = { Unit {0} };

    ghost view = { λ workspace. tt };
}

/// A list with no update any more, and the memory that it had.
fn emptied(ops: List<(RouterId, Op)>) -> List<(RouterId, Op)>
    ensures { result ≡ [] }
{
    let mut ops = ops.into_vec();
    ops.clear();
    List::from_vec(ops)
}

impl Workspace {
    /// Nothing found, and a list without memory.
    pub fn new(alloc: Global) -> Workspace {
        Workspace {
            ports: PortHints::new(),
            vrfs: VrfHints::new(),
            ops: List::new(alloc),
        }
    }

    /// A list for the updates of a frame, with the memory of the one kept last.
    pub fn ops(&mut self, alloc: Global) -> List<(RouterId, Op)>
        ensures { result ≡ [] }
    {
        emptied(mem::replace(&mut self.ops, List::new(alloc)))
    }

    /// Keeps the updates of a frame, for their memory.
    pub fn keep_ops(&mut self, ops: List<(RouterId, Op)>) {
        self.ops = ops;
    }
}
