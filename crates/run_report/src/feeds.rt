//! What the report prints of feeds.
//!
//! A writer `push_..` adds its text at the end of `out`. After `OutOfMemory`, for which alone it fails, a part of the
//! text may have been added.

ghost use Rattle.std.specs.Prelude.{◌≡◌, ◌++◌, ◌∷◌, [], OnOk, codes, decimal, length};
ghost use Rattle.std.specs.List.{flat_map};
ghost use Rattle.feed_model.specs.Causes.{name_of_cause};
ghost use Rattle.feed_model.specs.FrameCauses.{cause_text, frame_causes};
ghost use Rattle.dn_formats.specs.Report.{end_text, refused_line, feed_line, feed_lines};
ghost use Rattle.dn_formats.specs.Texts.{line};

use dn_formats::{push_bytes, push_labelled, push_router};
use dn_model::{OutOfMemory, Topology};
use feed_model::{FeedEnd, FeedTold, RefusedFrame, frame_cause};

/// Adds the name of a cause for which a frame is refused or a feed is lost.
fn push_frame_cause(out: &mut Vec<u8>, cause: u8) -> Result<(), OutOfMemory>
    ensures { OnOk result (out.new.items ≡ out.old.items ++ cause_text cause) }
{
    push_bytes(out, frame_cause::name(cause))
}

/// Adds where and why a feed was lost.
fn push_lost(out: &mut Vec<u8>, offset: u64, cause: u8) -> Result<(), OutOfMemory>
    ensures { OnOk result (out.new.items ≡ out.old.items ++ (codes "lost " ++ decimal offset ++ codes " " ++ cause_text cause)) }
{
    push_labelled(out, b"lost ", offset)?;
    push_bytes(out, b" ")?;
    push_frame_cause(out, cause)
}

/// Adds how a feed ended; nothing where it hasn't.
fn push_end(out: &mut Vec<u8>, end: Option<FeedEnd>) -> Result<(), OutOfMemory>
    ensures { OnOk result (out.new.items ≡ out.old.items ++ end_text end) }
{
    match end {
        None => Ok(()),
        Some(FeedEnd::End) => push_bytes(out, b"end"),
        Some(FeedEnd::CutShort { offset }) => push_labelled(out, b"cutshort ", offset),
        Some(FeedEnd::Lost { offset, cause }) => push_lost(out, offset, cause),
        Some(FeedEnd::TooLong) => push_bytes(out, b"toolong"),
        Some(FeedEnd::Full) => push_bytes(out, b"full"),
        Some(FeedEnd::Faulted) => push_bytes(out, b"readfault"),
    }
}

/// Adds the line of a refused frame.
fn push_refused_line(out: &mut Vec<u8>, frame: RefusedFrame) -> Result<(), OutOfMemory>
    ensures { OnOk result (out.new.items ≡ out.old.items ++ refused_line frame) }
{
    push_labelled(out, b"refused offset ", frame.offset)?;
    push_labelled(out, b" message ", u64::from(frame.at))?;
    push_labelled(out, b" cause ", u64::from(frame.cause))?;
    push_bytes(out, b" ")?;
    push_frame_cause(out, frame.cause)?;
    push_bytes(out, b"\n")?;
    Ok(())
}

/// Adds the lines of refused frames.
fn push_refused_lines(out: &mut Vec<u8>, frames: &[RefusedFrame]) -> Result<(), OutOfMemory>
    ensures { OnOk result (out.new.items ≡ out.old.items ++ flat_map refused_line frames.now) }
{
    for frame in frames {
        push_refused_line(out, *frame)?;
    }
    Ok(())
}

/// Adds how many updates, skipped messages and refused frames a feed has.
fn push_counts(out: &mut Vec<u8>, feed: &FeedTold) -> Result<(), OutOfMemory>
    ensures { OnOk result (out.new.items ≡ out.old.items ++ (codes " updates " ++ decimal feed.now.updates
        ++ codes " skipped " ++ decimal feed.now.skipped ++ codes " refused " ++ decimal (length feed.now.refused))) }
{
    push_labelled(out, b" updates ", feed.updates)?;
    push_labelled(out, b" skipped ", feed.skipped)?;
    push_labelled(out, b" refused ", feed.refused.len() as u64)
}

/// Adds a feed's line.
fn push_feed_line(out: &mut Vec<u8>, t: &Topology, feed: &FeedTold) -> Result<(), OutOfMemory>
    ensures { OnOk result (out.new.items ≡ out.old.items ++ feed_line t.now feed.now) }
{
    push_labelled(out, b"feed ", u64::from(feed.feed_no))?;
    push_bytes(out, b" ")?;
    push_router(out, t, feed.router)?;
    push_counts(out, feed)?;
    push_bytes(out, b" ")?;
    push_end(out, feed.end)?;
    push_bytes(out, b"\n")
}

/// Adds a feed's line and those of its refused frames.
fn push_feed_lines(out: &mut Vec<u8>, t: &Topology, feed: &FeedTold) -> Result<(), OutOfMemory>
    ensures { OnOk result (out.new.items ≡ out.old.items ++ feed_lines t.now feed.now) }
{
    push_feed_line(out, t, feed)?;
    push_refused_lines(out, feed.refused.as_slice())
}

/// Adds the lines of all feeds.
pub fn push_feeds(out: &mut Vec<u8>, t: &Topology, feeds: &[FeedTold]) -> Result<(), OutOfMemory>
    ensures { OnOk result (out.new.items ≡ out.old.items ++ flat_map (feed_lines t.now) feeds.now) }
{
    for feed in feeds {
        push_feed_lines(out, t, feed)?;
    }
    Ok(())
}
