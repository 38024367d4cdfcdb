//! The trials, by tables of their sizes.

use crate::draw::Spot;
use crate::found::Found;
use crate::trial::{Trial, agree};
use std::alloc::Global;
use std::process::Abort;
use std::test::Fail;

/// All prefixes that nest.
const ALL: Spot = Spot {
    first: 0,
    count: 20,
    hosts: 0,
    links: 0,
};

/// The low end of the addresses.
const LOW: Spot = Spot {
    first: 0,
    count: 6,
    hosts: 0,
    links: 0,
};

/// The prefixes in the middle, with equal lengths beside each other.
const MIDDLE: Spot = Spot {
    first: 6,
    count: 8,
    hosts: 0,
    links: 0,
};

/// The high end of the addresses, and then the low end.
const ENDS: Spot = Spot {
    first: 14,
    count: 12,
    hosts: 0,
    links: 0,
};

/// Mostly single addresses, below a few prefixes.
const HOSTS: Spot = Spot {
    first: 0,
    count: 3,
    hosts: 15,
    links: 0,
};

/// A trial of four stages, whose updates are all told, and at whose ends each kind of query is asked.
fn trial(routers: u16, updates: u32, spot: Spot, seed: u64) -> Trial {
    Trial {
        routers,
        stages: 4,
        updates,
        told: 1,
        kinds: 6,
        rounds: 1,
        is_split: true,
        beside: 8,
        spot,
        seed,
    }
}

/// The same trial with two stages, of whose updates one in ten is told.
fn wider(trial: Trial) -> Trial {
    Trial {
        stages: 2,
        told: 10,
        ..trial
    }
}

/// The same trial, in which one entry of three takes a link down or up.
fn with_links(trial: Trial) -> Trial {
    Trial {
        spot: Spot {
            links: 3,
            ..trial.spot
        },
        ..trial
    }
}

/// What trials met in all. In none of them answers differ.
fn met(rt: &impl Abort, alloc: Global, trials: &[Trial]) -> Result<Found, Fail> {
    let mut all = Found::new();
    for trial in trials {
        let found = agree(alloc, trial)?;
        assert_eq!(rt; found.differing, 0, "at {trial:?}");
        all.add(&found);
    }
    Ok(all)
}

/// So much was met and more.
fn assert_above(rt: &impl Abort, found: &Found, count: u64, bound: u64) {
    assert!(rt; count > bound, "{count} is not above {bound}: {found:?}");
}

/// All of these were met.
fn assert_some(rt: &impl Abort, found: &Found, counts: &[u64]) {
    for count in counts {
        assert_above(rt, found, *count, 0);
    }
}

/// What the trials are to meet came about: the seeds are such that it does.
fn assert_met(rt: &impl Abort, found: &Found) {
    let answers = [found.cycles, found.links_down, found.drops];
    let down = [
        found.path_down,
        found.uses_down,
        found.reach_down,
        found.waypoint_down,
        found.holes_down,
        found.loops_down,
    ];
    let updates = [
        found.clears,
        found.replaced,
        found.equal_lengths,
        found.metrics,
        found.both_ends,
        found.beside_held,
    ];
    assert_some(rt, found, &answers);
    assert_some(rt, found, &down);
    assert_some(rt, found, &updates);
}

#[test]
fn networks_of_one_to_three_routers(rt: HostRuntime) -> Result<(), Fail> {
    let trials = [
        trial(1, 8, ALL, 1),
        trial(1, 8, MIDDLE, 2),
        trial(2, 8, ALL, 3),
        trial(2, 8, LOW, 4),
        trial(2, 8, ENDS, 5),
        trial(3, 10, ALL, 6),
        trial(3, 10, MIDDLE, 7),
        trial(3, 10, ENDS, 8),
    ];
    let found = met(&rt, rt.alloc(), &trials)?;
    assert_met(&rt, &found);
    assert_above(&rt, &found, found.two_down, 0);
    Ok(())
}

#[test]
fn networks_of_four_to_six_routers(rt: HostRuntime) -> Result<(), Fail> {
    let trials = [
        trial(4, 12, ALL, 9),
        trial(4, 12, ENDS, 10),
        trial(5, 14, ALL, 11),
        trial(5, 14, MIDDLE, 12),
        trial(6, 16, ALL, 13),
        trial(6, 16, ENDS, 14),
    ];
    let found = met(&rt, rt.alloc(), &trials)?;
    assert_met(&rt, &found);
    assert_above(&rt, &found, found.two_down, 0);
    Ok(())
}

/// The targets of an atom's routers stand in chunks of eight.
#[test]
fn networks_of_seven_to_thirty_three_routers(rt: HostRuntime) -> Result<(), Fail> {
    let trials = [
        wider(trial(7, 30, ALL, 20)),
        wider(trial(8, 40, ENDS, 20)),
        wider(trial(9, 40, ALL, 21)),
        wider(trial(17, 60, ENDS, 22)),
        wider(trial(33, 90, MIDDLE, 23)),
    ];
    let found = met(&rt, rt.alloc(), &trials)?;
    assert_met(&rt, &found);
    Ok(())
}

/// A version of more than 600 atoms was met, with what is asked of paths in it.
fn assert_paths(rt: &impl Abort, found: &Found) {
    let counts = [
        found.links_down,
        found.clears,
        found.replaced,
        found.alone,
        found.beside_held,
    ];
    assert_above(rt, found, found.atoms, 600);
    assert_some(rt, found, &counts);
}

/// A version of more than 512 atoms was met, and answers of several runs.
fn assert_sets(rt: &impl Abort, found: &Found) {
    assert_above(rt, found, found.atoms, 512);
    assert_above(rt, found, found.uses_runs, 4);
    assert_above(rt, found, found.reach_runs, 4);
}

/// Pages hold 64 elements, and chunks 512 atoms. Paths are asked of a version of more than 600 atoms, and one question
/// about the uses of a link, and one of what reaches a router, of one of more than 512: both answers have several runs.
#[test]
fn atoms_of_many_pages_and_chunks(rt: HostRuntime) -> Result<(), Fail> {
    let paths = Trial {
        routers: 3,
        stages: 2,
        updates: 330,
        told: 33,
        kinds: 1,
        rounds: 12,
        is_split: true,
        beside: 4,
        spot: HOSTS,
        seed: 15,
    };
    let sets = Trial {
        routers: 12,
        stages: 1,
        updates: 480,
        kinds: 3,
        rounds: 1,
        is_split: false,
        beside: 1,
        seed: 118,
        ..paths
    };
    let found = met(&rt, rt.alloc(), &[paths])?;
    assert_paths(&rt, &found);
    let found = met(&rt, rt.alloc(), &[sets])?;
    assert_sets(&rt, &found);
    Ok(())
}

#[test]
fn a_network_of_sixty_four_routers(rt: HostRuntime) -> Result<(), Fail> {
    let all_kinds = Trial {
        routers: 64,
        stages: 2,
        updates: 125,
        told: 25,
        kinds: 6,
        rounds: 1,
        is_split: true,
        beside: 1,
        spot: ALL,
        seed: 245,
    };
    let paths = Trial {
        kinds: 1,
        rounds: 60,
        beside: 4,
        seed: 16,
        ..all_kinds
    };
    let found = met(&rt, rt.alloc(), &[all_kinds, paths])?;
    assert_met(&rt, &found);
    assert_above(&rt, &found, found.atoms, 20);
    Ok(())
}

/// Links go down and come up among the updates, and some are taken as down in the questions beside.
#[test]
fn links_that_go_down_and_come_up(rt: HostRuntime) -> Result<(), Fail> {
    let trials = [
        with_links(trial(2, 20, ALL, 31)),
        with_links(trial(3, 24, MIDDLE, 32)),
        with_links(trial(5, 24, ALL, 33)),
        with_links(trial(6, 24, ENDS, 34)),
        with_links(wider(trial(17, 60, LOW, 35))),
    ];
    let found = met(&rt, rt.alloc(), &trials)?;
    assert_met(&rt, &found);
    assert_some(&rt, &found, &[found.turned, found.unturned]);
    Ok(())
}
