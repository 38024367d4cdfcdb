//! The plain evaluator of `loops`: the cycles of the elementary intervals between the ends of all routers' prefixes,
//! and for each the runs of all addresses that go round it.

ghost use Rattle.std.specs.Prelude.{◌≡◌, ◌<◌, ◌≤◌, ◌^◌, ◌+◌, ℕ, IfOk, OnOk, IsTrue, IsFalse, Contains, false, length, slice_index_or};
ghost use Rattle.dn_model.specs.Answer.{IsLoopsAnswer};
ghost use Rattle.base.specs.Cycles.{AreCycles, AreInOrder, HasCycle, first_router};
ghost use Rattle.base.specs.CyclesFrom.{is_before, IsCycleOf, IsPutAmong, AreSomeCycles, TellsCycle, TellsCycles, AreCyclesFrom};
ghost use Rattle.base.specs.Runs.{AreApart, addresses_in};
ghost use Rattle.dn_model.specs.Network.{IsClosed, does_in, routers_in};
ghost use Rattle.base.specs.declared.cycle.Cycle.{Cycle as CycleIs};

use crate::answer::Answer;
use crate::network::Network;
use crate::plain_cycle::cycle_from;
use crate::plain_intervals::interval_below;
use crate::plain_runs::plain_runs;
use crate::plain_test::Test;
use base::{Cycle, List, OutOfMemory, RouterId, Run};
use std::alloc::Global;

/// The number of the first of these routers.
fn first_number(routers: &[RouterId]) -> u16
    ensures { result ≡ first_router routers.now }
{
    match routers.first() {
        Some(router) => router.0,
        None => 0,
    }
}

/// Whether a cycle comes before another: by least address, then by first router.
fn comes_before(x: &Cycle, y: &Cycle) -> bool
    ensures { result ≡ is_before x.now y.now }
{
    let (x_first, y_first) = (
        first_number(x.routers.as_slice()),
        first_number(y.routers.as_slice()),
    );
    x.least < y.least || (x.least == y.least && x_first < y_first)
}

/// Whether two lists of routers are the same.
fn is_same(x: &[RouterId], y: &[RouterId]) -> bool
    ensures yes { IsTrue result → x.now ≡ y.now }
    ensures refused { IsFalse result → x.now ≡ y.now → ⊥ }
{
    x == y
}

/// Whether a cycle of these routers is among these.
fn has_cycle(cycles: &[Cycle], routers: &[RouterId]) -> bool
    ensures yes { IsTrue result → HasCycle cycles.now routers.now }
    ensures refused { IsFalse result → (c : CycleIs) → Contains cycles.now c → c.routers ≡ routers.now → ⊥ }
{
    for cycle in cycles {
        if is_same(cycle.routers.as_slice(), routers) {
            return true;
        }
    }
    false
}

/// The place of a cycle among others: after all that come before it.
fn place_of(cycles: &[Cycle], cycle: &Cycle) -> usize
    ensures within { result ≤ length cycles.now }
    ensures before { (k : ℕ) (d : CycleIs) → k < result → IsTrue (is_before (slice_index_or cycles.now k d) cycle.now) }
    ensures after { (d : CycleIs) → result < length cycles.now
        → is_before (slice_index_or cycles.now result d) cycle.now ≡ false }
{
    for (i, other) in cycles.iter().enumerate() {
        if !comes_before(other, cycle) {
            return i;
        }
    }
    cycles.len()
}

/// Puts a cycle in its place among others, none of which has its least address and its first router.
fn put_cycle(cycles: &mut Vec<Cycle>, cycle: Cycle) -> Result<(), OutOfMemory>
    requires order { AreInOrder cycles.old.items }
    requires other { (c : CycleIs) → Contains cycles.old.items c → c.least ≡ cycle.least
        → first_router c.routers ≡ first_router cycle.routers → ⊥ }
    ensures { OnOk result (IsPutAmong cycle cycles.old.items cycles.new.items) }
{
    let place = place_of(cycles.as_slice(), &cycle);
    cycles.insert(place, cycle)?;
    Ok(())
}

/// How many addresses runs that don't touch have.
fn count_of(runs: &[Run]) -> u64
    requires { AreApart runs.now }
    ensures { result ≡ addresses_in runs.now }
{
    let mut count = 0;
    for run in runs {
        count += (u64::from(run.hi) + 1).saturating_sub(u64::from(run.lo));
    }
    count
}

/// The cycle of these routers; None if no address goes round it.
fn cycle_of(
    alloc: Global,
    net: &Network,
    routers: List<RouterId>,
) -> Result<Option<Cycle>, OutOfMemory>
    ensures { IfOk result (λ cycle. IsCycleOf (does_in net.now) routers cycle) }
{
    let test = Test::GoesRound(routers);
    let runs = plain_runs(alloc, net, &test)?;
    let Test::GoesRound(routers) = test else {
        unreachable!()
    };
    let [first, ..] = runs.as_slice() else {
        return Ok(None);
    };
    Ok(Some(Cycle {
        routers,
        least: first.lo,
        addresses: count_of(runs.as_slice()),
    }))
}

/// Puts the cycle of these routers among others, if addresses go round it and it isn't there.
fn tell_cycle(
    alloc: Global,
    net: &Network,
    cycles: &mut Vec<Cycle>,
    routers: List<RouterId>,
) -> Result<(), OutOfMemory>
    requires form { AreSomeCycles (does_in net.now) cycles.old.items }
    ensures { OnOk result (TellsCycle (does_in net.now) routers cycles.old.items cycles.new.items) }
{
    if has_cycle(cycles.as_slice(), routers.as_slice()) {
        return Ok(());
    }
    let Some(cycle) = cycle_of(alloc, net, routers)? else {
        return Ok(());
    };
    put_cycle(cycles, cycle)?;
    Ok(())
}

/// Puts the cycle that an address goes round, and of which a router is the first, among others, if there is one.
fn tell_first(
    alloc: Global,
    net: &Network,
    cycles: &mut Vec<Cycle>,
    first: RouterId,
    a: u32,
) -> Result<(), OutOfMemory>
    requires closed { IsClosed net.now }
    requires first { first.0 < routers_in net.now }
    requires form { AreSomeCycles (does_in net.now) cycles.old.items }
    ensures { OnOk result (
        TellsCycles (does_in net.now) first.0 (first.0 + 1) a cycles.old.items cycles.new.items) }
{
    let Some(routers) = cycle_from(alloc, net, first, a)? else {
        return Ok(());
    };
    tell_cycle(alloc, net, cycles, routers)?;
    Ok(())
}

/// Puts the cycles that an address goes round among others.
fn tell_address(
    alloc: Global,
    net: &Network,
    cycles: &mut Vec<Cycle>,
    a: u32,
) -> Result<(), OutOfMemory>
    requires closed { IsClosed net.now }
    requires form { AreSomeCycles (does_in net.now) cycles.old.items }
    ensures { OnOk result (
        TellsCycles (does_in net.now) 0 (routers_in net.now) a cycles.old.items cycles.new.items) }
{
    let mut left = net.router_count();
    while left > 0 {
        left -= 1;
        tell_first(alloc, net, cycles, RouterId(left), a)?;
    }
    Ok(())
}

/// Puts the cycles of the last elementary interval below `past` among others, and gives where the interval begins.
fn tell_interval(
    alloc: Global,
    net: &Network,
    cycles: &mut Vec<Cycle>,
    past: u64,
) -> Result<u64, OutOfMemory>
    requires closed { IsClosed net.now }
    requires some { 0 < past }
    requires below { past ≤ 2 ^ 32 }
    requires cycles { AreCyclesFrom (does_in net.now) past cycles.old.items }
    ensures lower { IfOk result (λ low. low < past) }
    ensures told { IfOk result (λ low. AreCyclesFrom (does_in net.now) low cycles.new.items) }
{
    let low = interval_below(net, past);
    tell_address(alloc, net, cycles, (past - 1) as u32)?;
    Ok(low)
}

/// The cycles of all addresses.
fn loops_of(alloc: Global, net: &Network) -> Result<List<Cycle>, OutOfMemory>
    requires { IsClosed net.now }
    ensures { IfOk result (λ cycles. AreCycles (does_in net.now) cycles) }
{
    let mut cycles = Vec::new(alloc);
    let mut past: u64 = 1 << 32;
    while past > 0 {
        past = tell_interval(alloc, net, &mut cycles, past)?;
    }
    Ok(List::from_vec(cycles))
}

/// The cycles in which addresses go round.
pub(crate) fn plain_loops(alloc: Global, net: &Network) -> Result<Answer, OutOfMemory>
    requires { IsClosed net.now }
    ensures { IfOk result (λ answer. IsLoopsAnswer (does_in net.now) answer) }
{
    let cycles = loops_of(alloc, net)?;
    Ok(Answer::Loops(cycles))
}
