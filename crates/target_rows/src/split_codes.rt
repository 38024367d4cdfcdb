//! Codes in two halves.

ghost use Rattle.std.specs.Prelude.{◌≡◌, ℕ, ◌+◌, ◌*◌, ◌/◌, ◌%◌, ◌<◌, ◌≤◌, ◌^◌, [], length, slice_index_or, IfOk, OnErr, OnOk};
ghost use Rattle.target_rows.specs.ChunkRows.{AreLaid, code_in, IsColumnWritten, IsWritten, lane_at, no_codes, repeated, stride_of, turned_count};
ghost use Rattle.target_rows.specs.SplitCodes.{AreHalves, side_by_side};

use crate::chunk_rows::{
    Column, Place, code_at, empty_chunks, place_in, repeat, stride, turn_column, write,
    write_column,
};
use crate::code_chunk::CodeChunk;
use crate::code_rows::read;
use base::OutOfMemory;
use std::alloc::Global;
use std::marker::Model;
use version_pages::Pages;

/// Rows of codes, the lower halves of which stand in one list of chunks and the upper halves in another. There are almost
/// always fewer than 65,536 codes, and then the second list is empty: so a code takes two bytes. Once a greater one is
/// written, the second list has a chunk for each one of the first, and a code takes four bytes. A contract sees one list of
/// chunks, with whole codes.
#[derive(Drop)]
pub struct SplitCodes {
    low: Pages<CodeChunk>,
    high: Pages<CodeChunk>,
}

impl Model for SplitCodes {
    ghost use Rattle.std.specs.Prelude.{List};
    ghost use Rattle.target_rows.specs.declared.code_chunk.CodeChunk.{CodeChunk};
    ghost use Rattle.target_rows.specs.SplitCodes.{AreHalves, side_by_side};

    ghost Value = { List CodeChunk };

    ghost view = { λ s. side_by_side s.low s.high };

    ghost invariant = { λ s. AreHalves s.low s.high };
}

/// The lower half of a code.
fn low_half(code: u32) -> u16
    ensures { result ≡ code % 65536 }
{
    (code % 65_536) as u16
}

/// The upper half of a code.
fn high_half(code: u32) -> u16
    ensures { result ≡ code / 65536 }
{
    (code / 65_536) as u16
}

/// The code that has these halves.
fn whole(low: u16, high: u16) -> u32
    ensures { result ≡ low + 65536 * high }
{
    low as u32 + 65_536 * high as u32
}

/// Makes the list of upper halves, which are all 0, where a code has an upper half and there is no such list.
fn reach(
    alloc: Global,
    low: &Pages<CodeChunk>,
    high: &mut Pages<CodeChunk>,
    code: u32,
) -> Result<(), OutOfMemory>
    requires { AreHalves low.now high.old }
    ensures halves { AreHalves low.now high.new }
    ensures same { (i : ℕ) → slice_index_or high.new i no_codes ≡ slice_index_or high.old i no_codes }
    ensures there { OnOk result (65536 ≤ code → length high.new ≡ length low.now) }
{
    if code >= 65_536 && high.len() == 0 {
        *high = empty_chunks(alloc, low.len())?;
    }
    Ok(())
}

/// Has chunks stand once more in both lists, as `repeat` does in one.
fn repeat_both(
    alloc: Global,
    low: &mut Pages<CodeChunk>,
    high: &mut Pages<CodeChunk>,
    from: u64,
    count: u64,
    next: u64,
) -> Result<(), OutOfMemory>
    requires halves { AreHalves low.old high.old }
    requires inside { from + count ≤ length low.old }
    requires fits { from + count < 2 ^ 64 }
    requires place { next ≤ length low.old }
    ensures halves { OnOk result (AreHalves low.new high.new) }
    ensures all { OnOk result
        (side_by_side low.new high.new ≡ repeated (side_by_side low.old high.old) from count next) }
{
    repeat(alloc, low, from, count, next)?;
    if high.len() == 0 {
        return Ok(());
    }
    repeat(alloc, high, from, count, next)
}

impl SplitCodes {
    /// No codes, which take no memory.
    pub fn new() -> SplitCodes
        ensures { result ≡ [] }
    {
        SplitCodes {
            low: Pages::new(),
            high: Pages::new(),
        }
    }

    /// So many chunks whose codes are all 0.
    fn empty(alloc: Global, count: u64) -> Result<SplitCodes, OutOfMemory>
        ensures { IfOk result (λ codes. length codes ≡ count) }
    {
        let low = empty_chunks(alloc, count)?;
        Ok(SplitCodes {
            low,
            high: Pages::new(),
        })
    }

    /// The row of chunks that has these codes, of which there are so many.
    pub fn of(alloc: Global, codes: &Pages<u32>, count: u32) -> Result<SplitCodes, OutOfMemory>
        requires { length codes.now ≡ count }
        ensures { IfOk result (λ chunks. AreLaid codes.now chunks count count) }
    {
        let mut chunks = SplitCodes::empty(alloc, stride(count))?;
        for r in 0..count {
            let place = Place {
                chunk: r as u64 / 8,
                lane: r % 8,
            };
            chunks.write(alloc, place, read(codes, r as u64))?;
        }
        Ok(chunks)
    }

    /// The code at a place.
    pub fn code_at(&self, place: Place) -> u32
        requires chunk { place.chunk < length self.now }
        requires lane { place.lane < 8 }
        ensures { result ≡ lane_at self.now place.chunk place.lane }
    {
        let low = code_at(&self.low, place);
        if self.high.len() == 0 {
            return low as u32;
        }
        let high = code_at(&self.high, place);
        whole(low, high)
    }

    /// The chunks from a place on to the end of its page, whose codes are all there is of them; none once a code of 65,536 or
    /// more was written.
    pub fn run_from(&self, place: u64) -> &[CodeChunk]
        requires place { place < length self.now }
        ensures inside { place + length result.now ≤ length self.now }
        ensures codes { (k lane : ℕ) → k < length result.now → lane < 8 →
            lane_at result.now k lane ≡ lane_at self.now (place + k) lane }
    {
        if self.high.len() == 0 {
            return self.low.run_from(place);
        }
        &[]
    }

    /// Puts a code at a place. It fails for want of memory alone, and then nothing is said of the codes.
    fn write(&mut self, alloc: Global, place: Place, code: u32) -> Result<(), OutOfMemory>
        requires chunk { place.chunk < length self.old }
        requires lane { place.lane < 8 }
        ensures { OnOk result (IsWritten self.old self.new place.chunk place.lane code) }
    {
        reach(alloc, &self.low, &mut self.high, code)?;
        write(alloc, &mut self.low, place, low_half(code))?;
        if self.high.len() == 0 {
            return Ok(());
        }
        write(alloc, &mut self.high, place, high_half(code))
    }

    /// Puts a code at each place of a column, page by page. It fails for want of memory alone, and then nothing is said of
    /// the codes.
    pub fn write_column(
        &mut self,
        alloc: Global,
        column: Column,
        code: u32,
    ) -> Result<(), OutOfMemory>
        requires router { column.r.0 < column.routers }
        requires atoms { column.first + column.count ≤ 2 ^ 32 }
        requires inside { (column.first + column.count) * stride_of column.routers ≤ length self.old }
        ensures { OnOk result
            (IsColumnWritten column.routers column.r.0 column.first self.old self.new column.count code) }
    {
        reach(alloc, &self.low, &mut self.high, code)?;
        write_column(alloc, &mut self.low, column, low_half(code))?;
        if self.high.len() == 0 {
            return Ok(());
        }
        write_column(alloc, &mut self.high, column, high_half(code))
    }

    /// Answers the first code of a column, and where that is another one than this, puts this one at each place of the
    /// column: while all codes are below 65,536, both in one descent for each page. It fails for want of memory alone, and
    /// then nothing is said of the codes.
    pub fn turn_column(
        &mut self,
        alloc: Global,
        column: Column,
        code: u32,
    ) -> Result<u32, OutOfMemory>
        requires router { column.r.0 < column.routers }
        requires some { 0 < column.count }
        requires atoms { column.first + column.count ≤ 2 ^ 32 }
        requires inside { (column.first + column.count) * stride_of column.routers ≤ length self.old }
        ensures before { IfOk result (λ before. before ≡ code_in column.routers self.old column.first column.r.0) }
        ensures all { IfOk result (λ before. IsColumnWritten column.routers column.r.0 column.first self.old self.new
            (turned_count before code column.count) code) }
    {
        if self.high.len() == 0 && code < 65_536 {
            let before = turn_column(alloc, &mut self.low, column, low_half(code))?;
            return Ok(before as u32);
        }
        let before = self.code_at(place_in(column.routers, column.r, column.first));
        if before == code {
            return Ok(before);
        }
        self.write_column(alloc, column, code)?;
        Ok(before)
    }

    /// So many chunks from a place on come to stand once more, before the one that stands at another place, or at the end.
    /// It fails for want of memory alone, and then no codes are left.
    pub fn repeat(
        &mut self,
        alloc: Global,
        from: u64,
        count: u64,
        next: u64,
    ) -> Result<(), OutOfMemory>
        requires inside { from + count ≤ length self.old }
        requires fits { from + count < 2 ^ 64 }
        requires place { next ≤ length self.old }
        ensures all { OnOk result (self.new ≡ repeated self.old from count next) }
        ensures none { OnErr result (self.new ≡ []) }
    {
        match repeat_both(alloc, &mut self.low, &mut self.high, from, count, next) {
            Ok(()) => Ok(()),
            Err(OutOfMemory) => {
                self.low = Pages::new();
                self.high = Pages::new();
                Err(OutOfMemory)
            }
        }
    }

    /// The same codes again, which share all pages with these.
    pub fn copy(&self) -> Result<SplitCodes, OutOfMemory>
        ensures { IfOk result (λ codes. codes ≡ self.now) }
    {
        Ok(SplitCodes {
            low: self.low.copy()?,
            high: self.high.copy()?,
        })
    }
}
