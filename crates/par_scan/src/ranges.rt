//! Ranges of rows, one for each piece of work.

ghost use Rattle.std.specs.Prelude.{◌≡◌, ◌<◌, ◌≤◌, ◌+◌, ◌*◌, ◌^◌};
ghost use Rattle.par_scan.specs.Ranges.{place_at};

/// How many ranges there are for each processor, so that no processor waits long for the last of them.
const FOR_EACH_PROCESSOR: u64 = 4;

/// How many rows a range has at least, if there are as many: fewer are not worth a thread.
const LEAST_ROWS: u64 = 256;

/// Rows cut into ranges of one size. The last ranges may have fewer rows, or none.
#[derive(Clone, Copy)]
pub(crate) struct Ranges {
    pub(crate) rows: u64,
    pub(crate) size: u64,
    ghost some: { 0 < size },
}

impl Ranges {
    /// So many rows, cut for so many processors.
    pub(crate) fn new(rows: u64, processors: usize) -> Ranges
        ensures { result.rows ≡ rows }
    {
        let pieces = (processors as u64)
            .saturating_mul(FOR_EACH_PROCESSOR)
            .max(1);
        Ranges {
            rows,
            size: (rows / pieces).max(LEAST_ROWS),
        }
    }

    /// How many ranges have all rows.
    pub(crate) fn count(self) -> u64
        requires { self.rows ≤ 2 ^ 32 }
        ensures some { 0 < result }
        ensures few { result ≤ 2 ^ 32 + 1 }
        ensures all { self.rows ≤ self.size * result }
    {
        self.rows / self.size + 1
    }

    /// The place of the first row of the range with a number, from 0: the range before it ends there.
    pub(crate) fn place(self, k: u64) -> u64
        ensures { result ≡ place_at self.rows self.size k }
    {
        let place = self.size.saturating_mul(k);
        if place < self.rows { place } else { self.rows }
    }
}
