//! What falls where, gathered while rows go by.

ghost use Rattle.std.specs.Prelude.{◌≡◌, ℕ, Bool, true, false, ◌+◌, ◌<◌, ◌≤◌, IfSome, OnOk, Some, length, slice_index_or, vec_len};
ghost use Rattle.base.specs.Forwarding.{AreForwarding};
ghost use Rattle.base.specs.Holes.{cause_rank, is_cause};
ghost use Rattle.base.specs.declared.ids.RouterId.{RouterId as RouterIs};
ghost use Rattle.base.specs.declared.target.Target.{Target as TargetIs};
ghost use Rattle.label_view.specs.Places.{begin_of};
ghost use Rattle.blackhole.specs.Gathering.{AreFalls, AreOrdered, TellsRows, is_fall_at, is_fall_before};
ghost use Rattle.blackhole.specs.declared.fall.Fall.{Fall as FallIs};

use crate::fall::Fall;
use base::{DropKind, OutOfMemory, RouterId, Target};
use label_view::runs::RunList;
use label_view::{LabelView, Rows};
use std::alloc::Global;

/// The place of a cause in the order in which causes are told; 0 for what is none.
fn rank(target: Target) -> u32
    ensures { result ≡ cause_rank target }
{
    match target {
        Target::NoRoute => 1,
        Target::Dropped(DropKind::Blackhole) => 2,
        Target::Dropped(DropKind::Unreachable) => 3,
        Target::Dropped(DropKind::Prohibit) => 4,
        Target::LinkDown(link) => 5 + u32::from(link.0),
        _ => 0,
    }
}

/// Whether a fall comes before others: by router, then by cause.
fn comes_before(fall: &Fall, router: RouterId, cause: Target) -> bool
    ensures { result ≡ is_fall_before fall.now router cause }
{
    if fall.router.0 == router.0 {
        return rank(fall.cause) < rank(cause);
    }
    fall.router.0 < router.0
}

/// Whether a fall is at this router by this cause.
fn is_at(fall: &Fall, router: RouterId, cause: Target) -> bool
    ensures { result ≡ is_fall_at fall.now router cause }
{
    if fall.router.0 == router.0 {
        return rank(fall.cause) == rank(cause);
    }
    false
}

/// How many falls come before a router and a cause; they are the first ones. Each look halves what is left, so among n
/// falls there are about log2 n looks.
fn place_of(falls: &[Fall], router: RouterId, cause: Target) -> usize
    requires { AreOrdered falls.now }
    ensures inside { result ≤ length falls.now }
    ensures before { (k : ℕ) (d : FallIs) → k < result →
        is_fall_before (slice_index_or falls.now k d) router cause ≡ true }
    ensures at { (d : FallIs) → result < length falls.now →
        is_fall_before (slice_index_or falls.now result d) router cause ≡ false }
{
    let mut low = 0;
    let mut high = falls.len();
    'search: while low < high {
        let middle = low + (high - low) / 2;
        if comes_before(&falls[middle], router, cause) {
            low = middle + 1;
        } else {
            high = middle;
        }
    }
    low
}

/// Whether the fall at a place, if there is one, is at this router by this cause.
fn is_there(falls: &[Fall], place: usize, router: RouterId, cause: Target) -> bool
    requires { place ≤ length falls.now }
    ensures inside { result ≡ true → place < length falls.now }
    ensures same { result ≡ true → (d : FallIs) →
        is_fall_at (slice_index_or falls.now place d) router cause ≡ true }
    ensures other { result ≡ false → place < length falls.now → (d : FallIs) →
        is_fall_at (slice_index_or falls.now place d) router cause ≡ false }
{
    if place == falls.len() {
        return false;
    }
    is_at(&falls[place], router, cause)
}

/// Adds the addresses of rows side by side to what falls at a router by a cause. Falls stay in order, by router and
/// cause. Only where nothing fell there before is room taken, and the falls that come after are moved on.
fn add_fall<V: LabelView>(
    alloc: Global,
    falls: &mut Vec<Fall>,
    view: &V,
    rows: Rows,
    router: RouterId,
    cause: Target,
) -> Result<(), OutOfMemory>
    requires form { AreForwarding (V.width view.now) (V.rows view.now) }
    requires some { rows.from < rows.past }
    requires inside { rows.past ≤ length (V.rows view.now) }
    requires rise { AreOrdered falls.old.items }
    requires order { (k : ℕ) (d : FallIs) → k < vec_len falls.old →
        (slice_index_or falls.old.items k d).runs.past ≤ begin_of (V.rows view.now) rows.from }
    requires cause { is_cause cause ≡ true }
    ensures { OnOk result ((test : RouterIs → TargetIs → ℕ → Bool) →
        AreFalls falls.old.items (V.rows view.now) rows.from test →
        TellsRows (V.rows view.now) rows.from rows.past (Some (router, cause)) test →
        AreFalls falls.new.items (V.rows view.now) rows.past test) }
{
    let place = place_of(falls.as_slice(), router, cause);
    if is_there(falls.as_slice(), place, router, cause) {
        falls[place].runs.push_rows(view, rows.from, rows.past)?;
        return Ok(());
    }
    let mut runs = RunList::new(alloc);
    runs.push_rows(view, rows.from, rows.past)?;
    falls.insert(
        place,
        Fall {
            router,
            cause,
            runs,
        },
    )?;
    Ok(())
}

/// Adds the addresses of rows side by side where they fall, if they do. Falls stay in order, by router and cause.
pub fn add_rows<V: LabelView>(
    alloc: Global,
    falls: &mut Vec<Fall>,
    view: &V,
    rows: Rows,
    end: Option<(RouterId, Target)>,
) -> Result<(), OutOfMemory>
    requires form { AreForwarding (V.width view.now) (V.rows view.now) }
    requires some { rows.from < rows.past }
    requires inside { rows.past ≤ length (V.rows view.now) }
    requires rise { AreOrdered falls.old.items }
    requires order { (k : ℕ) (d : FallIs) → k < vec_len falls.old →
        (slice_index_or falls.old.items k d).runs.past ≤ begin_of (V.rows view.now) rows.from }
    requires cause { IfSome end (λ e. is_cause e.1 ≡ true) }
    ensures { OnOk result ((test : RouterIs → TargetIs → ℕ → Bool) →
        AreFalls falls.old.items (V.rows view.now) rows.from test →
        TellsRows (V.rows view.now) rows.from rows.past end test →
        AreFalls falls.new.items (V.rows view.now) rows.past test) }
{
    match end {
        None => Ok(()),
        Some((router, cause)) => add_fall(alloc, falls, view, rows, router, cause),
    }
}
