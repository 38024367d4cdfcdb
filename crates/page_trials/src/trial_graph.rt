//! The labels of one router that know how many atoms there are, so that a test asks for what is there and shows nothing
//! first.

ghost use Rattle.std.specs.Prelude.{◌≡◌, length};

use dn_model::{AtomId, RouterId, Target};
use edge_labels::{AtomSet, LabelGraph};
use std::alloc::Global;
use std::process::Abort;

/// The labels of one router, beside the number of atoms. An atom that isn't there ends the test.
#[derive(Drop)]
pub struct TrialGraph {
    graph: LabelGraph,
    atoms: u32,
    ghost wide: { graph.routers ≡ 1 },
    ghost long: { length graph.rows ≡ atoms },
}

impl TrialGraph {
    /// The labels of the one router, which has no route for the one atom 0.
    pub fn new(rt: &impl Abort, alloc: Global) -> Self {
        TrialGraph {
            graph: LabelGraph::new(alloc, 1).expect(rt, "memory"),
            atoms: 1,
        }
    }

    /// The same labels again.
    pub fn copied(&self, rt: &impl Abort) -> Self {
        TrialGraph {
            graph: self.graph.copy().expect(rt, "memory"),
            atoms: self.atoms,
        }
    }

    /// One more atom, with which the router does what it does with the atom 0.
    pub fn inherit(self, rt: &impl Abort, alloc: Global) -> Self {
        let TrialGraph { graph, atoms } = self;
        assert!(rt; 0 < atoms);
        assert!(rt; atoms < 1_000_000);
        let graph = graph.inherit(alloc, AtomId(0), AtomId(atoms));
        TrialGraph {
            graph: graph.expect(rt, "memory"),
            atoms: atoms + 1,
        }
    }

    /// The router does something else with an atom.
    pub fn turn(self, rt: &impl Abort, alloc: Global, atom: u32, after: Target) -> Self {
        let TrialGraph { graph, atoms } = self;
        assert!(rt; atom < atoms);
        let before = graph.target(RouterId(0), AtomId(atom));
        let graph = graph.move_atom(alloc, RouterId(0), AtomId(atom), before, after);
        TrialGraph {
            graph: graph.expect(rt, "memory"),
            atoms,
        }
    }

    /// What the router does with an atom.
    pub fn target(&self, rt: &impl Abort, atom: u32) -> Target {
        assert!(rt; atom < self.atoms);
        self.graph.target(RouterId(0), AtomId(atom))
    }

    /// The atoms that have a target at the router.
    pub fn label(&self, target: Target) -> &AtomSet {
        self.graph.label(RouterId(0), target)
    }
}
