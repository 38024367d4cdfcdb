//! What a trial met.

use answer_equality::is_same_answer;
use dn_model::{Answer, Ask, Entry, Hole, Op, PathEnd, Prefix, Query, RouterId, Target};
use label_view::LabelView;

/// What a trial met: how often, and the most atoms that a version had. Numbers that would pass 2^64 - 1 stay there.
#[derive(Clone, Copy, Debug)]
pub struct Found {
    /// Pairs of answers that were compared.
    pub compared: u64,
    /// Those of them that were not the same.
    pub differing: u64,
    /// Answers that tell a cycle.
    pub cycles: u64,
    /// Answers that tell of addresses which end at a link that is down.
    pub links_down: u64,
    /// Answers that tell of addresses which a route drops.
    pub drops: u64,
    /// Paths that were others with two links down than with none.
    pub path_down: u64,
    /// The same of the uses of a link.
    pub uses_down: u64,
    /// The same of what reaches a router.
    pub reach_down: u64,
    /// The same of what reaches a router past a waypoint.
    pub waypoint_down: u64,
    /// The same of black holes.
    pub holes_down: u64,
    /// The same of the loops.
    pub loops_down: u64,
    /// Questions whose answer with two links down was another than with either of them down, and than with none.
    pub two_down: u64,
    /// Clearings that took a route.
    pub clears: u64,
    /// Settings whose prefix and metric had a route with another target.
    pub replaced: u64,
    /// Settings beside which the router had another prefix of the same length set before.
    pub equal_lengths: u64,
    /// Settings beside which the router had a route of the same prefix set before, with another metric.
    pub metrics: u64,
    /// Entries of a link that changed what some router does.
    pub turned: u64,
    /// Entries of a link that changed nothing.
    pub unturned: u64,
    /// Updates of a version that was held meanwhile, made beside it, which changed something.
    pub beside_held: u64,
    /// Paths that were asked of an address which the version has in an atom of its own.
    pub alone: u64,
    /// Versions that have both the lowest and the highest address in an atom of its own.
    pub both_ends: u64,
    /// The most atoms of a version.
    pub atoms: u64,
    /// The most runs over one end of a link, of an answer about its uses.
    pub uses_runs: u64,
    /// The most runs of an answer about what reaches a router, past a waypoint or not.
    pub reach_runs: u64,
}

/// Whether a hole is at a link that is down.
fn is_at_link_down(hole: &Hole) -> bool {
    matches!(hole.cause, Target::LinkDown(_))
}

/// Whether a hole is where a route drops.
fn is_at_drop(hole: &Hole) -> bool {
    matches!(hole.cause, Target::Dropped(_))
}

/// Whether an answer tells a cycle.
fn tells_cycle(answer: &Answer) -> bool {
    match answer {
        Answer::Loops(cycles) => !cycles.is_empty(),
        _ => false,
    }
}

/// Whether an answer tells of addresses that end at a link that is down.
fn tells_link_down(answer: &Answer) -> bool {
    match answer {
        Answer::Path { end, .. } => matches!(*end, PathEnd::At(Target::LinkDown(_))),
        Answer::Holes(holes) => holes.as_slice().iter().any(is_at_link_down),
        _ => false,
    }
}

/// Whether an answer tells of addresses that a route drops.
fn tells_drop(answer: &Answer) -> bool {
    match answer {
        Answer::Path { end, .. } => matches!(*end, PathEnd::At(Target::Dropped(_))),
        Answer::Holes(holes) => holes.as_slice().iter().any(is_at_drop),
        _ => false,
    }
}

/// How many runs an answer about the uses of a link has over one of its ends; none where it is another answer.
fn uses_runs(answer: &Answer) -> usize {
    match answer {
        Answer::Uses(first, second) => first.len().max(second.len()),
        _ => 0,
    }
}

/// How many runs an answer about what reaches a router has; none where it is another answer.
fn reach_runs(answer: &Answer) -> usize {
    match answer {
        Answer::Runs(runs) => runs.len(),
        _ => 0,
    }
}

/// What an update of a router does; None of a link.
fn op_of(entry: &Entry) -> Option<Op> {
    match entry {
        Entry::Route { op, .. } => Some(*op),
        Entry::Link { .. } => None,
    }
}

/// The prefix whose routes an update sets or clears.
fn prefix_of(op: &Op) -> Option<Prefix> {
    match op {
        Op::Set { prefix, .. } | Op::Clear { prefix, .. } => Some(*prefix),
        _ => None,
    }
}

/// The router whose routes of a prefix an update sets or clears, and the prefix.
fn place_of(entry: &Entry) -> Option<(RouterId, Prefix)> {
    let Entry::Route { router, op, .. } = entry else {
        return None;
    };
    let prefix = prefix_of(op)?;
    Some((*router, prefix))
}

/// The metric and the target of a route that an update sets.
fn set_by(entry: &Entry) -> Option<(u32, Target)> {
    match op_of(entry) {
        Some(Op::Set { metric, target, .. }) => Some((metric, target)),
        _ => None,
    }
}

/// Whether an update clears a route of this metric, where it is one of its prefix.
fn clears(entry: &Entry, metric: u32) -> bool {
    match op_of(entry) {
        Some(Op::Clear { metric: None, .. }) => true,
        Some(
            Op::Clear {
                metric: Some(of),
                ..
            },
        ) => of == metric,
        _ => false,
    }
}

/// Whether the first update sets a route of another prefix of the same length at the same router as the second.
fn is_beside(first: &Entry, second: &Entry) -> bool {
    let Some((router, old)) = place_of(first) else {
        return false;
    };
    let Some((other, new)) = place_of(second) else {
        return false;
    };
    set_by(first).is_some() && router == other && old.len() == new.len() && old.base() != new.base()
}

/// Whether two updates are of the same prefix at the same router.
fn is_at_same(first: &Entry, second: &Entry) -> bool {
    let Some(place) = place_of(first) else {
        return false;
    };
    place_of(second) == Some(place)
}

/// Whether two updates set a route of the same prefix at the same router, with different metrics.
fn is_of_other_metric(first: &Entry, second: &Entry) -> bool {
    let Some((metric, _)) = set_by(first) else {
        return false;
    };
    let Some((of, _)) = set_by(second) else {
        return false;
    };
    metric != of && is_at_same(first, second)
}

/// Whether the first update, a clearing, takes a route that the second one set.
fn takes(clearing: &Entry, set: &Entry) -> bool {
    let Some((metric, _)) = set_by(set) else {
        return false;
    };
    clears(clearing, metric) && is_at_same(clearing, set)
}

/// Whether two updates set a route of the same prefix and metric at the same router, with different targets.
fn replaces(new: &Entry, old: &Entry) -> bool {
    let Some((metric, target)) = set_by(new) else {
        return false;
    };
    let Some((of, was)) = set_by(old) else {
        return false;
    };
    metric == of && target != was && is_at_same(new, old)
}

/// Whether the first update ends a route that the second one set: takes it, or replaces it by one with another target.
fn ends_route(new: &Entry, old: &Entry) -> bool {
    takes(new, old) || replaces(new, old)
}

/// Whether an update after others ends a route that one of them set, and that none of the later ones ended.
fn is_of_route(before: &[Entry], entry: &Entry) -> bool {
    match before {
        [] => false,
        [first, rest @ ..] => {
            let is_left = ends_route(entry, first)
                && !rest.iter().any(|later| ends_route(later, first));
            is_left || is_of_route(rest, entry)
        }
    }
}

/// Whether a view has both the lowest and the highest address in a row of its own.
fn has_both_ends<V: LabelView>(view: &V) -> bool {
    let (_, past) = view.bounds(view.atom_of(0));
    let (low, _) = view.bounds(view.atom_of(u32::MAX));
    past == 1 && low == u64::from(u32::MAX)
}

/// Whether a view has an address in a row of its own.
fn is_alone<V: LabelView>(view: &V, address: u32) -> bool {
    let (low, past) = view.bounds(view.atom_of(address));
    past.saturating_sub(low) == 1
}

/// One more, where something is so.
fn more_if(count: u64, is_so: bool) -> u64 {
    count.saturating_add(u64::from(is_so))
}

impl Found {
    /// Nothing yet.
    pub fn new() -> Self {
        Found {
            compared: 0,
            differing: 0,
            cycles: 0,
            links_down: 0,
            drops: 0,
            path_down: 0,
            uses_down: 0,
            reach_down: 0,
            waypoint_down: 0,
            holes_down: 0,
            loops_down: 0,
            two_down: 0,
            clears: 0,
            replaced: 0,
            equal_lengths: 0,
            metrics: 0,
            turned: 0,
            unturned: 0,
            beside_held: 0,
            alone: 0,
            both_ends: 0,
            atoms: 0,
            uses_runs: 0,
            reach_runs: 0,
        }
    }

    /// Notes a query that is asked of a version.
    pub fn note_query<V: LabelView>(&mut self, view: &V, query: &Query) {
        if let Ask::Path(_, address) = query.ask() {
            self.alone = more_if(self.alone, is_alone(view, *address));
        }
    }

    /// Notes two answers to a query.
    pub fn note_answers(&mut self, by_version: &Answer, plain: &Answer) {
        let is_same = is_same_answer(by_version, plain);
        self.compared = more_if(self.compared, true);
        self.differing = more_if(self.differing, !is_same);
        self.cycles = more_if(self.cycles, tells_cycle(plain));
        self.links_down = more_if(self.links_down, tells_link_down(plain));
        self.drops = more_if(self.drops, tells_drop(plain));
        self.uses_runs = self.uses_runs.max(uses_runs(plain) as u64);
        self.reach_runs = self.reach_runs.max(reach_runs(plain) as u64);
    }

    /// Notes a query that was not answered.
    pub fn note_unanswered(&mut self) {
        self.compared = more_if(self.compared, true);
        self.differing = more_if(self.differing, true);
    }

    /// Notes a question of this kind, 0 to 5: whether its answer with two links down is another than with none, and
    /// whether it is another than with none and with either.
    pub fn note_down(&mut self, kind: u32, is_other: bool, is_by_both: bool) {
        self.two_down = more_if(self.two_down, is_by_both);
        match kind {
            0 => self.path_down = more_if(self.path_down, is_other),
            1 => self.uses_down = more_if(self.uses_down, is_other),
            2 => self.reach_down = more_if(self.reach_down, is_other),
            3 => self.waypoint_down = more_if(self.waypoint_down, is_other),
            4 => self.holes_down = more_if(self.holes_down, is_other),
            _ => self.loops_down = more_if(self.loops_down, is_other),
        }
    }

    /// Notes an update after others.
    pub fn note_update(&mut self, before: &[Entry], entry: &Entry) {
        let is_of_route = is_of_route(before, entry);
        match op_of(entry) {
            Some(Op::Clear { .. }) => self.clears = more_if(self.clears, is_of_route),
            Some(Op::Set { .. }) => {
                let is_equal = before.iter().any(|old| is_beside(old, entry));
                let is_other = before.iter().any(|old| is_of_other_metric(old, entry));
                self.replaced = more_if(self.replaced, is_of_route);
                self.equal_lengths = more_if(self.equal_lengths, is_equal);
                self.metrics = more_if(self.metrics, is_other);
            }
            _ => {}
        }
    }

    /// Notes an entry, and whether it changed something: nothing of one that is no link's.
    pub fn note_turn(&mut self, entry: &Entry, is_change: bool) {
        if let Entry::Link { .. } = entry {
            self.turned = more_if(self.turned, is_change);
            self.unturned = more_if(self.unturned, !is_change);
        }
    }

    /// Notes an update that was made beside a version that is held, and whether it changed something.
    pub fn note_beside(&mut self, is_change: bool) {
        self.beside_held = more_if(self.beside_held, is_change);
    }

    /// Notes what a version's rows are.
    pub fn note_rows<V: LabelView>(&mut self, view: &V) {
        self.atoms = self.atoms.max(view.atoms());
        self.both_ends = more_if(self.both_ends, has_both_ends(view));
    }

    /// Notes what another trial met.
    pub fn add(&mut self, other: &Found) {
        self.compared = self.compared.saturating_add(other.compared);
        self.differing = self.differing.saturating_add(other.differing);
        self.cycles = self.cycles.saturating_add(other.cycles);
        self.links_down = self.links_down.saturating_add(other.links_down);
        self.drops = self.drops.saturating_add(other.drops);
        self.path_down = self.path_down.saturating_add(other.path_down);
        self.uses_down = self.uses_down.saturating_add(other.uses_down);
        self.reach_down = self.reach_down.saturating_add(other.reach_down);
        self.waypoint_down = self.waypoint_down.saturating_add(other.waypoint_down);
        self.holes_down = self.holes_down.saturating_add(other.holes_down);
        self.loops_down = self.loops_down.saturating_add(other.loops_down);
        self.two_down = self.two_down.saturating_add(other.two_down);
        self.clears = self.clears.saturating_add(other.clears);
        self.replaced = self.replaced.saturating_add(other.replaced);
        self.equal_lengths = self.equal_lengths.saturating_add(other.equal_lengths);
        self.metrics = self.metrics.saturating_add(other.metrics);
        self.turned = self.turned.saturating_add(other.turned);
        self.unturned = self.unturned.saturating_add(other.unturned);
        self.beside_held = self.beside_held.saturating_add(other.beside_held);
        self.alone = self.alone.saturating_add(other.alone);
        self.both_ends = self.both_ends.saturating_add(other.both_ends);
        self.atoms = self.atoms.max(other.atoms);
        self.uses_runs = self.uses_runs.max(other.uses_runs);
        self.reach_runs = self.reach_runs.max(other.reach_runs);
    }
}
