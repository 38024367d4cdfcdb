//! Stores that grow past pages of 64 entries.

ghost use Rattle.std.specs.Prelude.{◌<◌, ◌+◌, ◌^◌};

use crate::questions::compare;
use crate::same::same;
use crate::step::{entry_of, first_steps, step_at};
use crate::trial::Trial;
use dn_model::Posted;
use std::alloc::Global;
use std::process::Abort;

/// Whether an entry is the one at this place of a long history, posted under the place as its seat.
fn is_at(posted: Option<&Posted>, place: u32) -> bool {
    match posted {
        Some(posted) => posted.seat == place && posted.entry == entry_of(step_at(place)),
        None => false,
    }
}

/// A store has the first entries of a long history in its pages.
fn compare_pages(rt: &impl Abort, trial: &Trial, count: u32) {
    let pages = trial.posted(rt);
    same(rt, &pages.len(), &u64::from(count));
    for place in 0..count {
        let posted = pages.get(u64::from(place));
        assert!(rt; is_at(posted, place), "in pages at {place}");
    }
}

/// A store lists the first entries of a long history.
fn compare_list(rt: &impl Abort, alloc: Global, trial: &Trial, count: u32) {
    let history = trial.history(rt, alloc);
    same(rt, &history.len(), &(count as usize));
    for place in 0..count {
        let posted = history.as_slice().get(place as usize);
        assert!(rt; is_at(posted, place), "listed at {place}");
    }
}

/// Posts the next entry of a long history.
fn post_at(rt: &impl Abort, trial: &mut Trial, place: u32)
    requires { place + 1 < 2 ^ 32 }
{
    let posted = trial.post(place, step_at(place));
    same(rt, &posted, &Ok(place + 1));
}

/// Posts entries of a long history until there are so many, and looks at them.
fn grow(rt: &impl Abort, alloc: Global, trial: &mut Trial, count: u32) {
    for number in trial.len()..u64::from(count) {
        post_at(rt, trial, number as u32);
    }
    same(rt, &trial.len(), &u64::from(count));
    compare_pages(rt, trial, count);
    compare_list(rt, alloc, trial, count);
}

/// A snapshot, held while its store grows from so many entries to 129, is of these entries.
fn compare_held(rt: &impl Abort, alloc: Global, count: u32) {
    let mut trial = Trial::new(rt, alloc, 200);
    grow(rt, alloc, &mut trial, count);
    let held = trial.snap(rt);
    grow(rt, alloc, &mut trial, 129);
    let steps = first_steps(rt, alloc, count);
    compare(rt, alloc, &held, steps.as_slice());
}

/// Entries go to the pages 64 at once.
#[test]
fn a_history_grows_by_pages(rt: HostRuntime) {
    let mut trial = Trial::new(&rt, rt.alloc(), 200);
    for count in [0, 1, 63, 64, 65, 128, 129, 200] {
        grow(&rt, rt.alloc(), &mut trial, count);
    }
}

#[test]
fn a_snapshot_of_a_whole_page_stays(rt: HostRuntime) {
    compare_held(&rt, rt.alloc(), 64);
}

#[test]
fn a_snapshot_past_a_whole_page_stays(rt: HostRuntime) {
    compare_held(&rt, rt.alloc(), 65);
}
