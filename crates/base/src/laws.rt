//! What the definitions come to: laws of walks, runs, holes, cycles and changes. Each function is a law: it
//! does nothing, and its contract says it.

ghost use Rattle.std.specs.Prelude.{◌≡◌, ◌<◌, ℕ, Bool, List};
ghost use Rattle.base.specs.Cycles.{AreCycles};
ghost use Rattle.base.specs.Delta.{IsDelta};
ghost use Rattle.base.specs.Holes.{AreHoles};
ghost use Rattle.base.specs.Runs.{AreRuns};
ghost use Rattle.base.specs.Walk.{walk, walk_end, LeadsWithin, EndsWith};
ghost use Rattle.base.specs.declared.cycle.Cycle.{Cycle};
ghost use Rattle.base.specs.declared.hole.Hole.{Hole};
ghost use Rattle.base.specs.declared.path_end.PathEnd.TheVariants.{At, Loop};
ghost use Rattle.base.specs.declared.change.Change.{Change};
ghost use Rattle.base.specs.declared.ids.RouterId.{RouterId};
ghost use Rattle.base.specs.declared.run.Run.{Run};
ghost use Rattle.base.specs.declared.target.Target.{Target};

/// A walk that is told to be in a loop is in a true one: if each of so many routers goes on to one of them, and a
/// walk has made as many hops as there are routers, then it goes on for any number of hops.
pub fn loops_are_true()
    ensures { (target_at : RouterId → Target) (routers : ℕ) (first : RouterId) → LeadsWithin routers target_at → first.0 < routers → walk_end target_at routers first ≡ Loop → (hops : ℕ) → walk_end target_at hops first ≡ Loop }
{}

/// A walk that ends, ends at its last router: the end is what that router does with the address, and is no `To`.
pub fn walks_end_at_the_last_router()
    ensures { (target_at : RouterId → Target) (hops : ℕ) (first : RouterId) (end : Target) → walk_end target_at hops first ≡ At end → EndsWith target_at (walk target_at hops first) end }
{}

/// A set of addresses has one list of runs.
pub fn runs_are_unique()
    ensures { (xs ys : List Run) (test : ℕ → Bool) → AreRuns xs test → AreRuns ys test → xs ≡ ys }
{}

/// A router's walks have one list of black holes: of the same routers that do the same with each address.
pub fn holes_are_unique()
    ensures { (routers : ℕ) (does : RouterId → ℕ → Target) (first : RouterId) (xs ys : List Hole) → AreHoles routers does first xs → AreHoles routers does first ys → xs ≡ ys }
{}

/// Routers that do the same with each address have one list of cycles.
pub fn cycles_are_unique()
    ensures { (does : RouterId → ℕ → Target) (xs ys : List Cycle) → AreCycles does xs → AreCycles does ys → xs ≡ ys }
{}

/// What changes between two moments is one list of changes.
pub fn deltas_are_unique()
    ensures { (before after : RouterId → ℕ → Target) (xs ys : List Change) → IsDelta before after xs → IsDelta before after ys → xs ≡ ys }
{}
