//! Frames of one feed are taken through the lock.

ghost use Rattle.std.specs.Prelude.{◌≡◌, ◌<◌, ◌≤◌, ◌++◌, All, length, take, IfOk, OnErr, Some, None};
ghost use Rattle.feed_model.specs.Steps.{entries_by};
ghost use Rattle.feed_threads.specs.Seats.{own_of, SawMore};
ghost use Rattle.feed_threads.specs.Takes.{HasTaken, IsStep, MayPost, MayPostOf, MayShow, MayTake, Takes, TakesShown};
ghost use Rattle.feed_threads.specs.Takes.{TookFirst};

use crate::desk::{Desk, Shown};
use crate::feed::{Feed, next_step};
use dn_io::{Gate, Source};
use dn_model::{Entry, List, Op, OutOfMemory, RouterId};
use route_feed::FeedStep;
use std::sync::Wait;
use version_lock::Seat;

/// Applies updates of one feed, each to its router's table, in order, and answers how many of them the history took:
/// all, or fewer where it was full. Where memory is wanting it took the first of them.
#[tactic(auto, using(crate::proofs::OpLemmas::op_taken))]
fn post_all<G: Gate, R: Wait>(
    rt: &R,
    desk: &Desk<'_, G>,
    seat: &mut Seat,
    feed_no: u32,
    ops: &[(RouterId, Op)],
) -> Result<usize, OutOfMemory>
    requires { MayPost desk.now seat.old ops.now }
    ensures saw { SawMore seat.old seat.new }
    ensures few { IfOk result (λ n. n ≤ length ops.now) }
    ensures own { IfOk result (λ n. own_of seat.old.number seat.new.seen ≡ own_of seat.old.number seat.old.seen
        ++ entries_by feed_no (take n ops.now)) }
    ensures first { OnErr result (TookFirst seat.old.number feed_no seat.old.seen seat.new.seen ops.now) }
    ensures full { IfOk result (λ n. n < length ops.now → desk.now.setup.basis.limit ≤ length seat.new.seen) }
{
    for taken in 0..ops.len() {
        let entry = Entry::Route {
            router: ops[taken].0,
            feed_no,
            op: ops[taken].1,
        };
        if desk.post(rt, seat, &entry)?.is_none() {
            return Ok(taken);
        }
    }
    Ok(ops.len())
}

/// Applies the updates of a frame that a feed's reader has just handed out, which gets the list back then, for its
/// memory. Answers whether the history took all of them. Where it did not the feed is at its end.
fn take_ops<S: Source, G: Gate, R: Wait>(
    rt: &R,
    desk: &Desk<'_, G>,
    seat: &mut Seat,
    feed: &mut Feed<S>,
    ops: List<(RouterId, Op)>,
) -> Result<bool, OutOfMemory>
    requires { MayPostOf desk.now seat.old feed.old ops }
    ensures saw { SawMore seat.old seat.new }
    ensures reader { feed.new.reader ≡ feed.old.reader }
    ensures took { IfOk result (λ more. HasTaken desk.now.setup.basis.limit seat.old.number more feed.new.kept
        feed.old.reader.told seat.old.seen seat.new.seen ops) }
    ensures first { OnErr result (TookFirst seat.old.number feed.old.reader.told.feed_no seat.old.seen
        seat.new.seen ops) }
    ensures going { OnErr result (feed.new.kept ≡ None) }
{
    let feed_no = feed.reader.told().feed_no;
    let count = ops.len();
    let taken = post_all(rt, desk, seat, feed_no, ops.as_slice());
    feed.reader.take_back(ops);
    let taken = taken?;
    if taken == count {
        return Ok(true);
    }
    let missed = (count - taken) as u64;
    feed.kept = Some(feed.reader.told().updates - missed);
    Ok(false)
}

/// Takes the next frame of a feed: its updates are applied. Answers whether the feed goes on, and not whether the frame
/// was accepted. A frame whose updates met a full history is the feed's last.
fn take_frame<S: Source, G: Gate, R: Wait>(
    rt: &R,
    desk: &Desk<'_, G>,
    seat: &mut Seat,
    feed: &mut Feed<S>,
) -> Result<bool, OutOfMemory>
    requires { MayTake desk.now seat.old feed.old }
    ensures takes { Takes desk.now S.left S.faults S.place result (Some 1) seat.old seat.new feed.old feed.new }
    ensures step { IsStep result feed.old feed.new }
{
    if feed.kept.is_some() {
        return Ok(false);
    }
    match next_step(desk.alloc(), desk.topology(), &mut feed.reader)? {
        FeedStep::Ops(ops, _) => take_ops(rt, desk, seat, feed, ops),
        FeedStep::Refused { .. } => Ok(true),
        FeedStep::End => Ok(false),
        FeedStep::CutShort { .. } => Ok(false),
        FeedStep::Lost { .. } => Ok(false),
        FeedStep::TooLong => Ok(false),
        FeedStep::Faulted => Ok(false),
    }
}

/// The same; but where the job may wait for the frame's bytes, what was applied until then is shown before.
fn take_shown<S: Source, G: Gate, R: Wait>(
    rt: &R,
    desk: &Desk<'_, G>,
    seat: &mut Seat,
    shown: &mut Shown,
    feed: &mut Feed<S>,
) -> Result<bool, OutOfMemory>
    requires { MayShow desk.now seat.old shown.old feed.old }
    ensures taken { TakesShown desk.now S.left S.faults S.place result (Some 1) seat.old seat.new shown.old
        shown.new feed.old feed.new }
    ensures step { IsStep result feed.old feed.new }
{
    if !feed.waits() {
        return take_frame(rt, desk, seat, feed);
    }
    desk.show(rt, seat, shown)?;
    take_frame(rt, desk, seat, feed)
}

/// Takes this many frames of a feed, or what is left where they are fewer.
fn take_some<S: Source, G: Gate, R: Wait>(
    rt: &R,
    desk: &Desk<'_, G>,
    seat: &mut Seat,
    shown: &mut Shown,
    feed: &mut Feed<S>,
    count: u32,
) -> Result<(), OutOfMemory>
    requires { MayShow desk.now seat.old shown.old feed.old }
    ensures { TakesShown desk.now S.left S.faults S.place result (Some count) seat.old seat.new shown.old
        shown.new feed.old feed.new }
{
    for taken in 0..count {
        let _ = taken;
        if !take_shown(rt, desk, seat, shown, feed)? {
            return Ok(());
        }
    }
    Ok(())
}

/// Takes the rest of a feed.
fn take_rest<S: Source, G: Gate, R: Wait>(
    rt: &R,
    desk: &Desk<'_, G>,
    seat: &mut Seat,
    shown: &mut Shown,
    feed: &mut Feed<S>,
) -> Result<(), OutOfMemory>
    requires { MayShow desk.now seat.old shown.old feed.old }
    ensures { TakesShown desk.now S.left S.faults S.place result None seat.old seat.new shown.old
        shown.new feed.old feed.new }
{
    let mut more = true;
    while more {
        more = take_shown(rt, desk, seat, shown, feed)?;
    }
    Ok(())
}

/// Takes this many frames of a feed, or without a count the rest of it. After `OutOfMemory` the history has the first
/// of what the feed gave.
pub(crate) fn take_frames<S: Source, G: Gate, R: Wait>(
    rt: &R,
    desk: &Desk<'_, G>,
    seat: &mut Seat,
    shown: &mut Shown,
    feed: &mut Feed<S>,
    count: Option<u32>,
) -> Result<(), OutOfMemory>
    requires { MayShow desk.now seat.old shown.old feed.old }
    ensures { TakesShown desk.now S.left S.faults S.place result count seat.old seat.new shown.old
        shown.new feed.old feed.new }
{
    match count {
        Some(count) => take_some(rt, desk, seat, shown, feed, count),
        None => take_rest(rt, desk, seat, shown, feed),
    }
}
