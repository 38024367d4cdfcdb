//! The boundaries of atoms alone.

ghost use Rattle.std.specs.Prelude.{◌≡◌, ◌+◌, ◌<◌, ◌≤◌, ◌^◌, ◌-◌, ℕ, IfOk, IfSome, OnErr, length, min, slice_index_or};
ghost use Rattle.atom_map.specs.Spans.{Span, AreRunsIn, AreRunsOf, AreSpans, DoRise, IsCut, IsLastBegun, IsSpanAt, IsSpanPlace, one_span, spans_of};

use crate::guide::Guide;
use base::{OutOfMemory, Run};
use std::alloc::Global;
use std::marker::Model;
use version_pages::{Pages, count_below_from};

/// The address after the last.
const END: u64 = 0x1_0000_0000;

/// How many places behind one that is at hand an atom is expected that is looked for from there.
const AHEAD: usize = 1;

/// Where an atom stands, which is how many atoms go before it, and its first address.
#[derive(Clone, Copy, Debug, PartialEq, Eq)]
pub struct BoundSpot {
    pub place: u64,
    pub low: u32,
}

/// Where to look first: near a place, so many places behind it.
#[derive(Clone, Copy, Debug, PartialEq, Eq)]
struct Look {
    near: u64,
    ahead: usize,
}

/// The addresses, cut into atoms that have no numbers: their first addresses, in order. A contract sees it as the list of
/// the atoms' bounds: they cover the addresses from 0 to 2^32 once.
#[derive(Drop)]
pub struct Bounds {
    lows: Pages<u32>,
    /// Where to look for the atom of an address.
    guide: Guide,
}

impl Model for Bounds {
    ghost use Rattle.std.specs.Prelude.{List};
    ghost use Rattle.atom_map.specs.Spans.{Span, AreSpans, spans_of};

    ghost Value = { List Span };

    ghost view = { λ b. spans_of b.lows };

    ghost invariant = { λ b. AreSpans (spans_of b.lows) };
}

impl Bounds {
    /// One atom of all addresses.
    pub fn new(alloc: Global) -> Result<Bounds, OutOfMemory>
        ensures { IfOk result (λ bounds. bounds ≡ one_span) }
    {
        let mut lows = Pages::new();
        lows.push(alloc, 0)?;
        let mut guide = Guide::new();
        guide.begin(alloc);
        guide.count(0);
        Ok(Bounds { lows, guide })
    }

    /// How many atoms there are.
    pub fn count(&self) -> u64
        ensures value { result ≡ length self.now }
        ensures form { AreSpans self.now }
    {
        self.lows.len()
    }

    /// Where to look first for an address: right behind a place that may be at hand, or else where the guide says.
    fn look(&self, near: Option<u64>, a: u32) -> Look {
        match near {
            Some(near) => Look { near, ahead: AHEAD },
            None => Look {
                near: self.guide.place(a),
                ahead: 0,
            },
        }
    }

    /// The atom of an address. It is looked for first in the page of a place that may be at hand, right behind that place:
    /// where it is found there it takes one descent.
    pub fn spot_near(&self, near: Option<u64>, a: u32) -> BoundSpot
        ensures { IsSpanAt self.now result.place a result.low }
    {
        match spot_at_hand(&self.lows, self.look(near, a), a) {
            Some(spot) => spot,
            None => spot_of(&self.lows, a),
        }
    }

    /// The place of the atom that has an address: how many atoms go before it. It is looked for as by `spot_near`.
    pub fn place_near(&self, near: Option<u64>, a: u32) -> u64
        ensures { IsSpanPlace self.now result a }
    {
        self.spot_near(near, a).place
    }

    /// The place of the atom that has an address. It takes no memory.
    pub fn place_of(&self, a: u32) -> u64
        ensures { IsSpanPlace self.now result a }
    {
        self.place_near(None, a)
    }

    /// The places of the atoms that have two addresses, the second of which isn't below the first. It looks first in the
    /// page of a place that may be at hand, right behind that place: where both are found there it takes one descent.
    pub fn places_from(&self, near: Option<u64>, lo: u32, hi: u32) -> (u64, u64)
        ensures first { IsSpanPlace self.now result.0 lo }
        ensures last { IsSpanPlace self.now result.1 hi }
    {
        match places_at_hand(&self.lows, self.look(near, lo), lo, hi) {
            Some(places) => places,
            None => {
                let first = self.place_of(lo);
                (first, self.place_near(Some(first), hi))
            }
        }
    }

    /// Cuts the atom of an address, which was found, in two there: the atom ends at the address, and another begins there. It
    /// answers whether it did: not where an atom begins at the address already. After `OutOfMemory`, for which alone it
    /// fails, the atoms are as before.
    pub fn cut_at(&mut self, alloc: Global, spot: BoundSpot, at: u32) -> Result<bool, OutOfMemory>
        requires { IsSpanAt self.old spot.place at spot.low }
        ensures ok { IfOk result (IsCut self.old self.new at) }
        ensures err { OnErr result (self.new ≡ self.old) }
        ensures form { AreSpans self.new }
    {
        let _ = &self.lows;
        if spot.low == at {
            return Ok(false);
        }
        self.lows.insert_at(alloc, spot.place + 1, at)?;
        self.guide.count(at);
        Ok(true)
    }

    /// The bounds of the atom at a place: its first address, and the one after its last, which for the last atom is 2^32.
    pub fn bounds(&self, i: u64) -> (u64, u64)
        requires { i < length self.now }
        ensures low { (d : Span) → result.0 ≡ (slice_index_or self.now i d).low }
        ensures past { (d : Span) → result.1 ≡ (slice_index_or self.now i d).past }
    {
        match bounds_at_hand(&self.lows, i) {
            Some(bounds) => bounds,
            None => (u64::from(low_at(&self.lows, i)), past_at(&self.lows, i)),
        }
    }

    /// The runs of the addresses of atoms side by side, from the one at a place on, put into `out` from its front: as many
    /// as are seen to end in that one's page and there is room for, one at least. It answers how many.
    pub fn runs(&self, i: u64, out: &mut [Run]) -> usize
        requires place { i < length self.now }
        requires room { 0 < length out.old }
        ensures some { 0 < result }
        ensures within { result ≤ length out.new }
        ensures inside { i + result ≤ length self.now }
        ensures room { length out.new ≡ length out.old }
        ensures runs { AreRunsOf self.now i result out.new }
    {
        runs_at(&self.lows, i, out)
    }

    /// The same atoms again. The two share what later cuts don't change.
    pub fn copy(&self) -> Result<Bounds, OutOfMemory>
        ensures { IfOk result (λ bounds. bounds ≡ self.now) }
    {
        let lows = self.lows.copy()?;
        Ok(Bounds {
            lows,
            guide: Guide::new(),
        })
    }
}

/// The first address of the atom at a place.
fn low_at(lows: &Pages<u32>, i: u64) -> u32
    requires { i < length lows.now }
    ensures { (d : ℕ) → result ≡ slice_index_or lows.now i d }
{
    match lows.get(i) {
        Some(low) => *low,
        None => unreachable!(),
    }
}

/// The address after the last of the atom at a place.
fn past_at(lows: &Pages<u32>, i: u64) -> u64
    requires inside { i < length lows.now }
    requires form { AreSpans (spans_of lows.now) }
    ensures { (d : Span) → result ≡ (slice_index_or (spans_of lows.now) i d).past }
{
    match lows.get(i + 1) {
        Some(low) => u64::from(*low),
        None => END,
    }
}

/// The bounds of the atom at a place, where its page has the next one too: they are read in one descent.
fn bounds_at_hand(lows: &Pages<u32>, i: u64) -> Option<(u64, u64)>
    requires { AreSpans (spans_of lows.now) }
    ensures low { IfSome result (λ bounds. (d : Span) → bounds.0 ≡ (slice_index_or (spans_of lows.now) i d).low) }
    ensures past { IfSome result (λ bounds. (d : Span) → bounds.1 ≡ (slice_index_or (spans_of lows.now) i d).past) }
{
    match lows.run_from(i) {
        [low, next, ..] => Some((u64::from(*low), u64::from(*next))),
        _ => None,
    }
}

/// The run of the addresses from `low` up to, and without, `past`.
fn run_between(low: u64, past: u64) -> Run
    requires some { low < past }
    requires bound { past ≤ 2 ^ 32 }
    ensures lo { result.lo ≡ low }
    ensures hi { result.hi + 1 ≡ past }
{
    Run {
        lo: low as u32,
        hi: (past - 1) as u32,
    }
}

/// The runs between addresses that ascend, put into `out` from its front: as many as there are and there is room for. It
/// answers how many.
fn runs_in(page: &[u32], out: &mut [Run]) -> usize
    requires { DoRise page.now }
    ensures count { result ≡ min (length out.old) (length page.now - 1) }
    ensures room { length out.new ≡ length out.old }
    ensures runs { AreRunsIn page.now result out.new }
{
    let count = out.len().min(page.len().saturating_sub(1));
    let mut k = 0;
    'runs: while k < count {
        out[k] = run_between(u64::from(page[k]), u64::from(page[k + 1]));
        k += 1;
    }
    count
}

/// The runs of the addresses of atoms side by side, from the one at a place on, put into `out` from its front: as many as
/// begin in that one's page and there is room for. It answers how many.
fn runs_at(lows: &Pages<u32>, i: u64, out: &mut [Run]) -> usize
    requires form { AreSpans (spans_of lows.now) }
    requires place { i < length lows.now }
    requires room { 0 < length out.old }
    ensures some { 0 < result }
    ensures within { result ≤ length out.new }
    ensures inside { i + result ≤ length lows.now }
    ensures room { length out.new ≡ length out.old }
    ensures runs { AreRunsOf (spans_of lows.now) i result out.new }
{
    let page = lows.run_from(i);
    let count = runs_in(page, out);
    if count == out.len() {
        return count;
    }
    let past = past_at(lows, i + count as u64);
    out[count] = run_between(u64::from(page[count]), past);
    count + 1
}

/// Which of the atoms that begin in a page has an address: the last that doesn't begin above it. `left` is how many begin in
/// the page and behind it. It is none where none begins so low, and where the page's last may end below the address, since the
/// next page says where it ends. It looks first where the atom is expected.
fn place_in(page: &[u32], left: u64, expected: usize, a: u32) -> Option<usize>
    ensures { IfSome result (λ place. IsLastBegun page.now left place a) }
{
    let begun = count_below_from(page, u64::from(a) + 1, expected.saturating_add(1));
    let place = begun.checked_sub(1)?;
    if begun == page.len() && (begun as u64) < left {
        return None;
    }
    Some(place)
}

/// The atom of an address, where it stands in the page of a place and its end is seen there.
fn spot_at_hand(lows: &Pages<u32>, look: Look, a: u32) -> Option<BoundSpot>
    requires { AreSpans (spans_of lows.now) }
    ensures { IfSome result (λ spot. IsSpanAt (spans_of lows.now) spot.place a spot.low) }
{
    let (page, first, at) = lows.page_near(look.near);
    let left = lows.len().saturating_sub(first);
    let below = place_in(page, left, at.saturating_add(look.ahead), a)?;
    Some(BoundSpot {
        place: first + below as u64,
        low: page[below],
    })
}

/// The places of the atoms of two addresses, where both stand in the page of a place and their ends are seen there. The
/// second is looked for from the first on.
fn places_at_hand(lows: &Pages<u32>, look: Look, lo: u32, hi: u32) -> Option<(u64, u64)>
    requires { AreSpans (spans_of lows.now) }
    ensures first { IfSome result (λ places. IsSpanPlace (spans_of lows.now) places.0 lo) }
    ensures last { IfSome result (λ places. IsSpanPlace (spans_of lows.now) places.1 hi) }
{
    let (page, from, at) = lows.page_near(look.near);
    let left = lows.len().saturating_sub(from);
    let first = place_in(page, left, at.saturating_add(look.ahead), lo)?;
    let last = place_in(page, left, first, hi)?;
    Some((from + first as u64, from + last as u64))
}

/// The atom of an address, found in one descent from the root.
#[cold]
#[inline(never)]
fn spot_of(lows: &Pages<u32>, a: u32) -> BoundSpot
    requires { AreSpans (spans_of lows.now) }
    ensures { IsSpanAt (spans_of lows.now) result.place a result.low }
{
    let begun = lows.count_below(u64::from(a) + 1);
    let place = begun - 1;
    BoundSpot {
        place,
        low: low_at(lows, place),
    }
}
