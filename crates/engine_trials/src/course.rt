//! A history with the version that stands for it.

ghost use Rattle.std.specs.Prelude.{◌≡◌, ◌<◌, ◌++◌, ◌∷◌, [], List, IfOk, IsTrue, None, length};
ghost use Rattle.std.specs.Arc.{arc_value};
ghost use Rattle.dn_model.specs.Answer.{IsAnswer};
ghost use Rattle.dn_model.specs.Entry.{IsEntryOf};
ghost use Rattle.dn_model.specs.Query.{unknown_of};
ghost use Rattle.net_engine.specs.Followed.{IsFollowed};
ghost use Rattle.net_engine.specs.Version.{KeptStandsFor};
ghost use Rattle.dn_model.specs.declared.entry.Entry.{Entry as EntryIs};
ghost use Rattle.engine_trials.specs.Past.{more};

use crate::ring::ring;
use delta_graph::Delta;
use dn_model::{Answer, Change, Entry, OutOfMemory, Query, Topology, plain_answer};
use net_engine::Version;
use std::alloc::Global;
use std::marker::{Brand, Model};
use std::process::Abort;
use std::sync::Arc;
use std::sync::ledger::{Blank, Ledger};
use step_count::Steps;

/// A history of a network that has a router, with the version that stands for it. A contract sees the topology and the
/// entries.
#[derive(Drop)]
pub struct Course {
    topology: Arc<Topology, Global>,
    version: Version,
    entries: Vec<Entry>,
}

impl Model for Course {
    ghost use Rattle.std.specs.Arc.{arc_value};
    ghost use Rattle.engine_trials.specs.Past.{IsCourse, Past};

    ghost Value = { Past };

    ghost view = { λ c. record { topology = arc_value c.topology; entries = c.entries.items } };

    ghost invariant = { λ c. IsCourse (arc_value c.topology) c.entries.items c.version };
}

/// The answer to a query whose names the topology has, by a version. Nobody reads the count of steps, which takes no
/// bytes.
fn by_version<L: Ledger>(
    alloc: Global,
    topology: &Topology,
    version: &Version,
    changes: &[Change],
    query: &Query,
    blank: Blank,
) -> Result<Answer, OutOfMemory>
    requires name { blank.name ≡ L.name }
    requires parts { blank.parts ≡ L.parts }
    requires some { 0 < blank.parts }
    requires known { unknown_of topology.now query.now ≡ None }
    requires wide { length version.now.topology.routers ≡ length topology.now.routers }
{
    let mut steps = Steps::<L>::new(blank);
    row_answers::answer(alloc, topology, version, changes, query, &mut steps)
}

/// The version after an update, made in its own place. Nobody reads the count of looks, which takes no bytes.
fn advance_version<L: Ledger>(
    alloc: Global,
    version: Version,
    entry: &Entry,
    blank: Blank,
) -> Result<(Version, Delta), OutOfMemory>
    requires entry { IsEntryOf version.topology entry.now }
    requires followed { IsFollowed entry.now }
    requires name { blank.name ≡ L.name }
    requires parts { blank.parts ≡ L.parts }
    requires some { 0 < blank.parts }
    ensures topology { IfOk result (λ made. made.0.topology ≡ version.topology) }
    ensures stands { IfOk result (λ made. (history : List EntryIs) → KeptStandsFor version history
        → KeptStandsFor made.0 (history ++ entry.now ∷ [])) }
{
    let mut steps = Steps::<L>::new(blank);
    version.advance(alloc, entry, &mut steps)
}

/// The version after an update, made beside the one before it. Nobody reads the count of looks.
fn apply_version<L: Ledger>(
    alloc: Global,
    version: &Version,
    entry: &Entry,
    blank: Blank,
) -> Result<(Version, Delta), OutOfMemory>
    requires entry { IsEntryOf version.now.topology entry.now }
    requires followed { IsFollowed entry.now }
    requires name { blank.name ≡ L.name }
    requires parts { blank.parts ≡ L.parts }
    requires some { 0 < blank.parts }
    ensures topology { IfOk result (λ made. made.0.topology ≡ version.now.topology) }
    ensures stands { IfOk result (λ made. (history : List EntryIs) → KeptStandsFor version.now history
        → KeptStandsFor made.0 (history ++ entry.now ∷ [])) }
{
    let mut steps = Steps::<L>::new(blank);
    version.apply(alloc, entry, &mut steps)
}

impl Course {
    /// The history before any update. It fails for want of memory alone.
    pub fn new(alloc: Global, topology: Topology) -> Result<Course, OutOfMemory>
        requires { 0 < length topology.routers }
        ensures { IfOk result (λ course. course ≡ record { topology = topology; entries = [] }) }
    {
        let topology = Arc::new(alloc, topology)?;
        let version = Version::empty(alloc, Arc::try_clone(&topology)?)?;
        Ok(Course {
            topology,
            version,
            entries: Vec::new(alloc),
        })
    }

    /// The network, which has a router.
    pub fn topology(&self) -> &Topology
        ensures value { result.now ≡ self.now.topology }
        ensures some { 0 < length self.now.topology.routers }
    {
        &self.topology
    }

    /// Whether the network has each name of a query.
    pub fn knows(&self, query: &Query) -> bool
        ensures { IsTrue result → unknown_of self.now.topology query.now ≡ None }
    {
        query.unknown(&self.topology).is_none()
    }

    /// The version that stands for the history.
    pub fn version(&self) -> &Version {
        &self.version
    }

    /// The updates so far, in order.
    pub fn entries(&self) -> &[Entry]
        ensures { result.now ≡ self.now.entries }
    {
        self.entries.as_slice()
    }

    /// The same history again. It fails for want of memory alone.
    pub fn copy(&self, alloc: Global) -> Result<Course, OutOfMemory>
        ensures { IfOk result (λ course. course ≡ self.now) }
    {
        let topology = Arc::try_clone(&self.topology)?;
        let version = self.version.copy(alloc)?;
        let entries = Vec::from_slice(alloc, self.entries.as_slice())?;
        Ok(Course {
            topology,
            version,
            entries,
        })
    }

    /// The history with an update more, made in the version's own place, and what that changed. It fails for want of
    /// memory alone.
    pub fn advance(self, alloc: Global, entry: &Entry) -> Result<(Course, Delta), OutOfMemory>
        requires entry { IsEntryOf self.topology entry.now }
        requires followed { IsFollowed entry.now }
        ensures { IfOk result (λ made. made.0 ≡ more self entry.now) }
    {
        let Course {
            topology,
            version,
            entries: past,
        } = self;
        let (version, delta) = advance_version::<Brand>(alloc, version, entry, Blank::new(1))?;
        // a list of its own, since the borrow checker's plan for one that is taken apart wants a value of `Op`
        let mut entries = Vec::from_slice(alloc, past.as_slice())?;
        entries.push(*entry)?;
        Ok((
            Course {
                topology,
                version,
                entries,
            },
            delta,
        ))
    }

    /// The history with an update more, whose version is made beside this one, and what that changed. It fails for want
    /// of memory alone.
    pub fn apply(&self, alloc: Global, entry: &Entry) -> Result<(Course, Delta), OutOfMemory>
        requires entry { IsEntryOf self.now.topology entry.now }
        requires followed { IsFollowed entry.now }
        ensures { IfOk result (λ made. made.0 ≡ more self.now entry.now) }
    {
        let topology = Arc::try_clone(&self.topology)?;
        let (version, delta) = apply_version::<Brand>(alloc, &self.version, entry, Blank::new(1))?;
        let mut entries = Vec::from_slice(alloc, self.entries.as_slice())?;
        entries.push(*entry)?;
        Ok((
            Course {
                topology,
                version,
                entries,
            },
            delta,
        ))
    }

    /// The answers to a query whose names the topology has, by the version, for `Ask::Delta` with these changes, and by
    /// the plain evaluator over the updates so far. It fails for want of memory alone.
    pub fn answers(
        &self,
        alloc: Global,
        changes: &[Change],
        query: &Query,
    ) -> Result<(Answer, Answer), OutOfMemory>
        requires { unknown_of self.now.topology query.now ≡ None }
        ensures { IfOk result (λ answers. IsAnswer self.now.topology self.now.entries query.now answers.1) }
    {
        let topology: &Topology = &self.topology;
        let shown = by_version::<Brand>(
            alloc,
            topology,
            &self.version,
            changes,
            query,
            Blank::new(1),
        )?;
        let plain = plain_answer(alloc, topology, self.entries.as_slice(), query)?;
        Ok((shown, plain))
    }
}

/// The history of a ring of so many routers, before any update.
pub fn course_of_ring(rt: &impl Abort, alloc: Global, routers: u16) -> Course {
    let topology = ring(alloc, routers).expect(rt, "a network");
    assert!(rt; topology.router_count() > 0);
    Course::new(alloc, topology).expect(rt, "memory")
}
