//! What the router that changes go on to does in the rows that come next, read many rows at a time.

ghost use Rattle.std.specs.Prelude.{◌≡◌, ℕ, ◌≤◌, List, [], ◌∷◌, IfSome, IsTrue};
ghost use Rattle.base.specs.Forwarding.{does};
ghost use Rattle.base.specs.declared.forwarding_row.ForwardingRow.{ForwardingRow as Row};
ghost use Rattle.base.specs.declared.ids.LinkId.{LinkId as Link};
ghost use Rattle.base.specs.declared.ids.RouterId.{RouterId as Router};
ghost use Rattle.base.specs.declared.target.Target.TheVariants.{To};
ghost use Rattle.loop_keeper.specs.Ahead.{EndsOn, HasAll, IsAhead};
ghost use Rattle.loop_keeper.specs.Finding.{FindsMore, TellsAfter};
ghost use Rattle.loop_keeper.specs.declared.found.Found.{Found as FoundIs};

use crate::finding::Places;
use base::{Change, RouterId, Run, Target};
use label_view::LabelView;

/// How many rows are read ahead at once, at most.
const AHEAD: usize = 16;

/// From how many rows on it tells something that no run was found in them.
const FEW: usize = 8;

/// How many rows lie, at most, between a row and what was looked at before, where the rows behind it are read ahead.
const CLOSE: u64 = 8;

/// What one router does in rows side by side, with the runs of their addresses.
#[derive(Drop)]
pub(crate) struct Ahead {
    /// The router.
    router: RouterId,
    /// The place of the first row.
    from: u64,
    /// How many rows were read, 16 at most. Of none nothing is known.
    count: usize,
    /// How many of them lie before the address that was looked for last.
    at: usize,
    /// Whether a run was found in one of them.
    is_met: bool,
    /// The runs of their addresses, row by row. Behind those that were read stands anything.
    runs: [Run; AHEAD],
    /// What the router does in them, row by row. Behind those that were read stands anything.
    targets: [Target; AHEAD],
}

/// Whether a router that does this goes on to nobody.
fn goes_nowhere(target: Target) -> bool
    ensures { IsTrue result → (s : Router) (l : Link) → target ≡ To s l → ⊥ }
{
    match target {
        Target::To(_, _) => false,
        _ => true,
    }
}

impl Ahead {
    /// Nothing is known.
    pub(crate) fn none() -> Ahead
        ensures { (width : ℕ) (rows : List Row) → IsAhead width rows result }
    {
        Ahead {
            router: RouterId(0),
            from: 0,
            count: 0,
            at: 0,
            is_met: false,
            runs: [Run { lo: 0, hi: 0 }; AHEAD],
            targets: [Target::NoRoute; AHEAD],
        }
    }

    /// Reads what a router does in the rows from a place on. Nothing is known then, if the view has no such router or row.
    fn fill<V: LabelView>(&mut self, view: &V, router: RouterId, from: u64)
        ensures ahead { IsAhead (V.width view.now) (V.rows view.now) self.new }
        ensures router { self.new.router ≡ router }
    {
        self.router = router;
        self.count = 0;
        self.at = 0;
        self.is_met = false;
        if u32::from(router.0) >= view.routers() || from >= view.atoms() {
            return;
        }
        let targets = view.column(router, from, &mut self.targets);
        let runs = view.runs(from, &mut self.runs);
        self.from = from;
        self.count = targets.min(runs);
    }

    /// Reads the next rows, if an address lies behind those that were read. Where no run was found in these, and they are
    /// not few, the changes lie far apart, and nothing is known then.
    fn read_next<V: LabelView>(&mut self, view: &V, a: u32)
        requires { IsAhead (V.width view.now) (V.rows view.now) self.old }
        ensures ahead { IsAhead (V.width view.now) (V.rows view.now) self.new }
        ensures router { self.new.router ≡ self.old.router }
    {
        if self.count == 0 || a <= self.runs[self.count - 1].hi {
            return;
        }
        if !self.is_met && self.count >= FEW {
            self.count = 0;
            return;
        }
        let past = self.from.saturating_add(self.count as u64);
        self.fill(view, self.router, past);
    }

    /// Reads on to an address, if it lies close behind the rows that were read. Few may be read at once, where a page of the
    /// view ends: so it reads twice.
    fn read_to<V: LabelView>(&mut self, view: &V, a: u32)
        requires { IsAhead (V.width view.now) (V.rows view.now) self.old }
        ensures ahead { IsAhead (V.width view.now) (V.rows view.now) self.new }
        ensures router { self.new.router ≡ self.old.router }
    {
        self.read_next(view, a);
        self.read_next(view, a);
    }

    /// Which of the rows has all of a run, if one is seen to. Runs are looked for in order of their addresses.
    fn find(&mut self, run: Run) -> Option<usize>
        requires room { self.old.count ≤ 16 }
        ensures found { IfSome result (λ at. HasAll self.new at run) }
        ensures ahead { (width : ℕ) (rows : List Row) → IsAhead width rows self.old → IsAhead width rows self.new }
        ensures router { self.new.router ≡ self.old.router }
    {
        let mut at = self.at;
        'rows: while at < self.count && self.runs[at].hi < run.lo {
            at += 1;
        }
        self.at = at;
        if at >= self.count || run.lo < self.runs[at].lo || self.runs[at].hi < run.hi {
            return None;
        }
        self.is_met = true;
        Some(at)
    }

    /// Whether the router is seen to go on to nobody in the one row that has all of a run.
    fn ends_on<V: LabelView>(&mut self, view: &V, run: Run) -> bool
        requires { IsAhead (V.width view.now) (V.rows view.now) self.old }
        ensures ahead { IsAhead (V.width view.now) (V.rows view.now) self.new }
        ensures ends { IsTrue result → EndsOn (does (V.rows view.now)) self.old.router run }
    {
        self.read_to(view, run.lo);
        let Some(at) = self.find(run) else {
            return false;
        };
        goes_nowhere(self.targets[at])
    }

    /// Reads on behind the rows of a change for the router that it goes on to, if that is the one that the change before
    /// went on to, and if they are close behind the place up to which rows were looked at.
    pub(crate) fn read_on<V: LabelView>(
        &mut self,
        view: &V,
        target: Target,
        places: Places,
        past: u64,
    )
        requires { IsAhead (V.width view.now) (V.rows view.now) self.old }
        ensures { IsAhead (V.width view.now) (V.rows view.now) self.new }
    {
        let Target::To(far, _) = target else {
            return;
        };
        if far.0 != self.router.0 {
            self.router = far;
            self.count = 0;
            return;
        }
        let read = self.from.saturating_add(self.count as u64);
        if places.first >= past.max(read).saturating_add(CLOSE) {
            return;
        }
        let next = places.last.saturating_add(1);
        if self.from <= next && next < read {
            return;
        }
        self.fill(view, far, next);
    }
}

/// Whether the router that a change goes on to is seen to go on to nobody in the one row that the change's run lies in: no
/// cycle goes through the router of the change then.
pub(crate) fn ends_next<V: LabelView>(view: &V, change: &Change, ahead: &mut Ahead) -> bool
    requires { IsAhead (V.width view.now) (V.rows view.now) ahead.old }
    ensures ahead { IsAhead (V.width view.now) (V.rows view.now) ahead.new }
    ensures none { IsTrue result → TellsAfter (does (V.rows view.now)) change.now
        → (found : List FoundIs) → FindsMore (does (V.rows view.now)) (change.now ∷ []) found found }
{
    let Target::To(far, _) = change.after else {
        return false;
    };
    if far.0 != ahead.router.0 {
        return false;
    }
    ahead.ends_on(view, change.run)
}
