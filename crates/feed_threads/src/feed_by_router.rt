//! A job takes frames of one of its feeds, by its place or by its router.

ghost use Rattle.std.specs.Prelude.{◌≡◌, ◌<◌, ◌∷◌, [], ℕ, length};
ghost use Rattle.std.specs.List.{position};
ghost use Rattle.dn_formats.specs.declared.script.Line.TheVariants.{Take};
ghost use Rattle.feed_threads.specs.Places.{is_feed_of};

use crate::desk::Desk;
use crate::feed::Feed;
use crate::take::take_frames;
use crate::work::Work;
use dn_io::{Gate, Source};
use dn_model::{OutOfMemory, RouterId};
use std::sync::Wait;

/// The place of the feed of a router.
fn place_of<S: Source>(feeds: &[Feed<S>], router: RouterId) -> Option<usize>
    ensures { result ≡ position (is_feed_of router) feeds.now }
{
    feeds
        .iter()
        .position(|feed| feed.reader.told().router == router)
}

impl<S: Source> Work<S> {
    ghost use Rattle.feed_threads.specs.Works.{IsAtWork, TookAt, WorksUntold};

    /// Takes this many frames of the feed at a place, or without a count the rest of it.
    fn take_at<G: Gate, R: Wait>(
        &mut self,
        rt: &R,
        desk: &Desk<'_, G>,
        at: usize,
        count: Option<u32>,
    ) -> Result<(), OutOfMemory>
        requires work { IsAtWork desk.now self.old }
        requires place { at < length self.old.feeds }
        ensures { TookAt desk.now S.left S.faults S.place result at count self.old self.new }
    {
        take_frames(
            rt,
            desk,
            &mut self.seat,
            &mut self.shown,
            &mut self.feeds[at],
            count,
        )
    }

    /// Takes frames of this router's feed, where the job has it, as a line of any number says.
    pub(crate) fn take_of<G: Gate, R: Wait>(
        &mut self,
        rt: &R,
        desk: &Desk<'_, G>,
        router: RouterId,
        count: Option<u32>,
    ) -> Result<(), OutOfMemory>
        requires work { IsAtWork desk.now self.old }
        ensures { (line : ℕ) → WorksUntold desk.now S.left S.faults S.place result self.old self.new
            (Take line router count ∷ []) }
    {
        match place_of(self.feeds.as_slice(), router) {
            Some(at) => self.take_at(rt, desk, at, count),
            None => Ok(()),
        }
    }
}
