//! A job at work: the lines of its script, in order, and then the rest of its feeds.

ghost use Rattle.std.specs.Prelude.{◌≡◌, ◌++◌, ◌∷◌, [], OnErr};
ghost use Rattle.feed_threads.specs.Tracks.{rest_of, rests_of, rests_by};

use crate::desk::{Desk, Shown};
use crate::feed::Feed;
use dn_formats::{Line, Told};
use dn_io::{Gate, Source};
use dn_model::{List, OutOfMemory};
use std::marker::Model;
use std::sync::Wait;
use std::thread::Threads;
use version_lock::Seat;

/// A job at work: its number, its seat, by what it shows what it applies, its feeds, and what is told so far. It isn't
/// `Drop`, since a publisher is to be ended.
pub(crate) struct Work<S: Source> {
    pub(crate) number: u32,
    pub(crate) seat: Seat,
    pub(crate) shown: Shown,
    pub(crate) feeds: Vec<Feed<S>>,
    pub(crate) told: List<Told>,
}

impl<S: Source> Model for Work<S> {
    ghost use Rattle.feed_threads.specs.Works.{Work};

    ghost Value = { Work S };

    ghost view = { λ w. record {
      number = w.number;
      seat = w.seat;
      shown = w.shown;
      feeds = w.feeds.items;
      told = w.told;
    } };
}

impl<S: Source> Work<S> {
    ghost use Rattle.feed_threads.specs.Works.{IsAtWork, TellsFrontOf, Works, WorksUntold};

    /// Does a line: takes its frames, asks its query, or sets its link.
    fn do_line<G: Gate, R: Threads + Wait + Sync>(
        &mut self,
        rt: &R,
        desk: &Desk<'_, G>,
        line: &Line,
    ) -> Result<(), OutOfMemory>
        requires work { IsAtWork desk.now self.old }
        ensures works { Works desk.now S.left S.faults S.place result self.old self.new (line.now ∷ []) }
        ensures err { OnErr result (self.new.told ≡ self.old.told) }
    {
        match line {
            Line::Take { router, count, .. } => self.take_of(rt, desk, *router, *count),
            Line::Ask { line, query } => self.ask(rt, desk, *line, query.get()),
            Line::Link { line, link, down } => self.set_link(rt, desk, *line, link, *down),
        }
    }

    /// Does the lines of a script, in order, and tells of each query and each link line.
    fn do_lines<G: Gate, R: Threads + Wait + Sync>(
        &mut self,
        rt: &R,
        desk: &Desk<'_, G>,
        lines: &[Line],
    ) -> Result<(), OutOfMemory>
        requires work { IsAtWork desk.now self.old }
        ensures works { Works desk.now S.left S.faults S.place result self.old self.new lines.now }
        ensures front { TellsFrontOf desk.now S.left S.faults S.place self.old self.new lines.now }
    {
        for line in lines {
            self.do_line(rt, desk, line)?;
        }
        Ok(())
    }

    /// Takes the rest of the feed that a line names, if it names one.
    fn take_rest_of<G: Gate, R: Wait>(
        &mut self,
        rt: &R,
        desk: &Desk<'_, G>,
        line: &Line,
    ) -> Result<(), OutOfMemory>
        requires work { IsAtWork desk.now self.old }
        ensures { WorksUntold desk.now S.left S.faults S.place result self.old self.new (rest_of line.now) }
    {
        match line {
            Line::Take { router, .. } => self.take_of(rt, desk, *router, None),
            Line::Ask { .. } => Ok(()),
            Line::Link { .. } => Ok(()),
        }
    }

    /// Takes the rest of the feeds that lines name, in the order in which they first name them.
    fn take_rests<G: Gate, R: Wait>(
        &mut self,
        rt: &R,
        desk: &Desk<'_, G>,
        lines: &[Line],
    ) -> Result<(), OutOfMemory>
        requires work { IsAtWork desk.now self.old }
        ensures { WorksUntold desk.now S.left S.faults S.place result self.old self.new (rests_of lines.now) }
    {
        for line in lines {
            self.take_rest_of(rt, desk, line)?;
        }
        Ok(())
    }

    /// Takes the rest of each feed, in order. Those that lines name are at their ends by then.
    fn take_all<G: Gate, R: Wait>(&mut self, rt: &R, desk: &Desk<'_, G>) -> Result<(), OutOfMemory>
        requires work { IsAtWork desk.now self.old }
        ensures { WorksUntold desk.now S.left S.faults S.place result self.old self.new (rests_by self.old.feeds) }
    {
        for at in 0..self.feeds.len() {
            let router = self.feeds[at].reader.told().router;
            self.take_of(rt, desk, router, None)?;
        }
        Ok(())
    }

    /// Does what a job of these lines does: the lines in order; then the rest of each feed that they name, in the order
    /// in which they first take it; then that of the others, in order.
    pub(crate) fn do_all<G: Gate, R: Threads + Wait + Sync>(
        &mut self,
        rt: &R,
        desk: &Desk<'_, G>,
        lines: &[Line],
    ) -> Result<(), OutOfMemory>
        requires work { IsAtWork desk.now self.old }
        ensures works { Works desk.now S.left S.faults S.place result self.old self.new
            ((lines.now ++ rests_of lines.now) ++ rests_by self.old.feeds) }
        ensures front { TellsFrontOf desk.now S.left S.faults S.place self.old self.new lines.now }
    {
        self.do_lines(rt, desk, lines)?;
        self.take_rests(rt, desk, lines)?;
        self.take_all(rt, desk)
    }
}
