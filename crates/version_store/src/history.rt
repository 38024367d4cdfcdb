//! The entries that were posted.

ghost use Rattle.std.specs.Prelude.{◌≡◌, ◌<◌, ◌^◌, ◌++◌, ◌∷◌, [], IfOk, OnErr, OnOk, length};

use dn_model::{List, OutOfMemory, Posted};
use std::alloc::Global;
use std::marker::Model;
use version_pages::Pages;

/// How many entries are the last ones at most: as many as a page has.
const LAST: usize = 64;

/// Entries in the order in which they were posted. A contract sees their list.
///
/// The last ones, 64 at most, stand in a list of their own, so that an entry is added without a way down to the last page.
/// They go to the pages together.
#[derive(Drop)]
pub(crate) struct History {
    pages: Pages<Posted>,
    last: Vec<Posted>,
}

impl Model for History {
    ghost use Rattle.std.specs.Prelude.{List, ◌++◌};
    ghost use Rattle.dn_model.specs.declared.entry.Posted.{Posted};

    ghost Value = { List Posted };

    ghost view = { λ h. h.pages ++ h.last.items };
}

impl History {
    /// No entries, which take no memory.
    pub(crate) fn new(alloc: Global) -> History
        ensures { result ≡ [] }
    {
        History {
            pages: Pages::new(),
            last: Vec::new(alloc),
        }
    }

    /// How many entries there are.
    pub(crate) fn len(&self) -> u64
        requires { length self.now < 2 ^ 64 }
        ensures { result ≡ length self.now }
    {
        self.pages.len() + self.last.len() as u64
    }

    /// Has the last entries go to the pages. The history is the same, also after `OutOfMemory`, for which alone it fails.
    fn settle(&mut self, alloc: Global) -> Result<(), OutOfMemory>
        ensures { self.new ≡ self.old }
    {
        let before = self.pages.len();
        let settled = self.pages.extend(alloc, &self.last);
        let count = (self.pages.len() - before) as usize;
        self.last.rotate_left(count);
        self.last.truncate(self.last.len() - count);
        settled
    }

    /// Adds an entry. After `OutOfMemory`, for which alone it fails, the history is as before.
    pub(crate) fn push(&mut self, alloc: Global, posted: Posted) -> Result<(), OutOfMemory>
        ensures ok { OnOk result (self.new ≡ self.old ++ posted ∷ []) }
        ensures err { OnErr result (self.new ≡ self.old) }
    {
        if self.last.len() >= LAST {
            self.settle(alloc)?;
        }
        self.last.extend_from_slice(&[posted])?;
        Ok(())
    }

    /// The entries in pages, of which those of the history are shared. It fails for want of memory alone.
    pub(crate) fn in_pages(&self, alloc: Global) -> Result<Pages<Posted>, OutOfMemory>
        ensures { IfOk result (λ pages. pages ≡ self.now) }
    {
        let mut pages = self.pages.copy()?;
        pages.extend(alloc, &self.last)?;
        Ok(pages)
    }

    /// The entries as a list of their own. It fails for want of memory alone.
    pub(crate) fn to_list(&self, alloc: Global) -> Result<List<Posted>, OutOfMemory>
        requires { length self.now < 2 ^ 64 }
        ensures { IfOk result (λ list. list ≡ self.now) }
    {
        let mut list = Vec::with_capacity(alloc, self.len() as usize)?;
        let count = self.pages.len() as usize;
        'pages: while list.len() < count {
            let run = self.pages.run_from(list.len() as u64);
            list.extend_from_slice(run)?;
        }
        list.extend_from_slice(&self.last)?;
        Ok(List::from_vec(list))
    }
}
