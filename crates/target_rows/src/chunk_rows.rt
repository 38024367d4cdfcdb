//! Halves of codes of what routers do with atoms, in rows of chunks of eight: for each atom, in order, stands a row of so
//! many whole chunks that each router has a place in it. What stands behind the last router's means nothing. What is said
//! of codes here holds of lower halves as of upper ones.

ghost use Rattle.std.specs.Prelude.{◌≡◌, ◌+◌, ◌*◌, ◌/◌, ◌%◌, ◌<◌, ◌^◌, ◌≤◌, ◌++◌, length, replicate, take, drop, IfOk, OnOk, OnErr};
ghost use Rattle.target_rows.specs.ChunkRows.{AreWritten, code_in, IsColumnWritten, IsWritten, lane_at, no_codes, repeated, stride_of, turned_count};

use crate::code_chunk::CodeChunk;
use base::{OutOfMemory, RouterId};
use std::alloc::Global;
use version_pages::Pages;

/// Where a code stands: the place of its chunk, and its place in the chunk.
#[derive(Clone, Copy, Debug, PartialEq, Eq)]
pub struct Place {
    pub chunk: u64,
    pub lane: u32,
}

/// The codes of a router at so many atoms, from the one of a place on, in rows of this number of routers.
#[derive(Clone, Copy, Debug, PartialEq, Eq)]
pub struct Column {
    pub routers: u32,
    pub r: RouterId,
    pub first: u64,
    pub count: u64,
}

/// How many chunks a row has.
pub fn stride(routers: u32) -> u64
    ensures { result ≡ stride_of routers }
{
    (routers as u64 + 7) / 8
}

/// Where the row of the atom at a place begins, or all rows end.
pub fn start_of(routers: u32, atom: u64) -> u64
    requires { atom ≤ 2 ^ 32 }
    ensures at { result ≡ atom * stride_of routers }
    ensures fits { result + stride_of routers < 2 ^ 64 }
{
    atom * stride(routers)
}

/// Where the code of a router stands at the atom of a place.
pub fn place_in(routers: u32, r: RouterId, atom: u64) -> Place
    requires router { r.0 < routers }
    requires atom { atom < 2 ^ 32 }
    ensures chunk { result.chunk ≡ atom * stride_of routers + r.0 / 8 }
    ensures lane { result.lane ≡ r.0 % 8 }
{
    Place {
        chunk: start_of(routers, atom) + r.0 as u64 / 8,
        lane: r.0 as u32 % 8,
    }
}

/// The code at a place.
pub fn code_at(chunks: &Pages<CodeChunk>, place: Place) -> u16
    requires chunk { place.chunk < length chunks.now }
    requires lane { place.lane < 8 }
    ensures { result ≡ lane_at chunks.now place.chunk place.lane }
{
    match chunks.get(place.chunk) {
        Some(chunk) => chunk.codes[place.lane as usize],
        None => unreachable!(),
    }
}

/// Puts a code at a place. After `OutOfMemory`, for which alone it fails, all codes are as before.
pub fn write(
    alloc: Global,
    chunks: &mut Pages<CodeChunk>,
    place: Place,
    code: u16,
) -> Result<(), OutOfMemory>
    requires chunk { place.chunk < length chunks.old }
    requires lane { place.lane < 8 }
    ensures ok { OnOk result (IsWritten chunks.old chunks.new place.chunk place.lane code) }
    ensures err { OnErr result (chunks.new ≡ chunks.old) }
{
    let lane = place.lane;
    chunks.change(alloc, place.chunk, |chunk: &mut CodeChunk| {
        chunk.put(lane, code)
    })?;
    Ok(())
}

/// So many chunks whose codes are all 0.
pub fn empty_chunks(alloc: Global, count: u64) -> Result<Pages<CodeChunk>, OutOfMemory>
    ensures { IfOk result (λ chunks. chunks ≡ replicate count no_codes) }
{
    let mut chunks = Pages::new();
    for _chunk in 0..count {
        chunks.push(alloc, CodeChunk::empty())?;
    }
    Ok(chunks)
}

/// So many chunks from a place on. It goes down to each page of them once.
fn chunks_from(
    alloc: Global,
    chunks: &Pages<CodeChunk>,
    from: u64,
    count: u64,
) -> Result<Vec<CodeChunk>, OutOfMemory>
    requires inside { from + count ≤ length chunks.now }
    requires fits { from + count < 2 ^ 64 }
    ensures { IfOk result (λ row. row.items ≡ take count (drop from chunks.now)) }
{
    let count = count as usize;
    let mut row = Vec::with_capacity(alloc, count)?;
    'pages: while row.len() < count {
        let run = chunks.run_from(from + row.len() as u64);
        let more = run.len().min(count - row.len());
        row.extend_from_slice(&run[..more])?;
    }
    Ok(row)
}

/// How many chunks a row has at most that is repeated without memory of its own.
const SHORT: usize = 16;

/// Puts the first of some chunks into a row from a place on, as many as there is room for. It answers how many.
fn put_front(row: &mut [CodeChunk], at: usize, run: &[CodeChunk]) -> usize
    requires { at ≤ length row.old }
    ensures some { at < length row.old → 0 < length run.now → 0 < result }
    ensures within { result ≤ length run.now }
    ensures room { at + result ≤ length row.old }
    ensures items { row.new ≡ take at row.old ++ take result run.now ++ drop (at + result) row.old }
{
    let count = run.len().min(row.len() - at);
    row[at..at + count].copy_from_slice(&run[..count]);
    count
}

/// Has a row be the chunks from a place on. It goes down to each page of them once.
fn read_row(row: &mut [CodeChunk], chunks: &Pages<CodeChunk>, from: u64)
    requires inside { from + length row.old ≤ length chunks.now }
    requires fits { from + length row.old < 2 ^ 64 }
    ensures { row.new ≡ take (length row.old) (drop from chunks.now) }
{
    let mut done = 0;
    'pages: while done < row.len() {
        let run = chunks.run_from(from + done as u64);
        done += put_front(row, done, run);
    }
}

/// As `repeat`, for a short row: its chunks are not copied into memory of their own.
fn repeat_short(
    alloc: Global,
    chunks: &mut Pages<CodeChunk>,
    from: u64,
    count: usize,
    next: u64,
) -> Result<(), OutOfMemory>
    requires short { count ≤ 16 }
    requires inside { from + count ≤ length chunks.old }
    requires fits { from + count < 2 ^ 64 }
    requires place { next ≤ length chunks.old }
    ensures { OnOk result (chunks.new ≡ repeated chunks.old from count next) }
{
    let mut row = [CodeChunk::empty(); SHORT];
    read_row(&mut row[..count], chunks, from);
    chunks.insert_all(alloc, next, &row[..count])
}

/// So many chunks from a place on come to stand once more, before the one that stands at another place, or at the end.
/// After `OutOfMemory` the first of them may be there.
pub fn repeat(
    alloc: Global,
    chunks: &mut Pages<CodeChunk>,
    from: u64,
    count: u64,
    next: u64,
) -> Result<(), OutOfMemory>
    requires inside { from + count ≤ length chunks.old }
    requires fits { from + count < 2 ^ 64 }
    requires place { next ≤ length chunks.old }
    ensures { OnOk result (chunks.new ≡ repeated chunks.old from count next) }
{
    if count <= SHORT as u64 {
        return repeat_short(alloc, chunks, from, count as usize, next);
    }
    let row = chunks_from(alloc, chunks, from, count)?;
    chunks.insert_all(alloc, next, &row)
}

/// Puts a code into a chunk of a run, and into each one that stands so much further on than the one before, from the
/// first chunk on and in at most so many. It answers in how many.
fn put_each(run: &mut [CodeChunk], stride: u64, lane: u32, code: u16, most: u64) -> u64
    requires some { 0 < stride }
    requires few { stride < 2 ^ 32 }
    requires lane { lane < 8 }
    ensures some { 0 < length run.old → 0 < most → 0 < result }
    ensures few { result ≤ most }
    ensures written { AreWritten run.old run.new 0 stride lane result code }
{
    let mut at = 0;
    let mut count = 0;
    'chunks: while count < most && at < run.len() {
        run[at].put(lane, code);
        at += stride as usize;
        count += 1;
    }
    count
}

/// Puts a code at a place, and at the same place of each chunk that stands so much further on than the one before, up to
/// the end of the first one's page and at most so often. It answers how often. After `OutOfMemory`, for which alone it
/// fails, all codes are as before.
fn write_some(
    alloc: Global,
    chunks: &mut Pages<CodeChunk>,
    place: Place,
    stride: u64,
    code: u16,
    most: u64,
) -> Result<u64, OutOfMemory>
    requires chunk { place.chunk < length chunks.old }
    requires lane { place.lane < 8 }
    requires apart { 0 < stride }
    requires near { stride < 2 ^ 32 }
    requires some { 0 < most }
    ensures some { IfOk result (λ count. 0 < count) }
    ensures few { IfOk result (λ count. count ≤ most) }
    ensures written { IfOk result (λ count. AreWritten chunks.old chunks.new place.chunk stride place.lane count code) }
    ensures same { OnErr result (chunks.new ≡ chunks.old) }
{
    let lane = place.lane;
    chunks.change_run(alloc, place.chunk, |run: &mut [CodeChunk]| {
        put_each(run, stride, lane, code, most)
    })
}

/// Puts a code at each place of a column, page by page. Where it fails, for which want of memory is the one cause, it
/// may stand at the first of them.
pub fn write_column(
    alloc: Global,
    chunks: &mut Pages<CodeChunk>,
    column: Column,
    code: u16,
) -> Result<(), OutOfMemory>
    requires router { column.r.0 < column.routers }
    requires atoms { column.first + column.count ≤ 2 ^ 32 }
    requires inside { (column.first + column.count) * stride_of column.routers ≤ length chunks.old }
    ensures all { OnOk result
        (IsColumnWritten column.routers column.r.0 column.first chunks.old chunks.new column.count code) }
    ensures long { length chunks.new ≡ length chunks.old }
{
    let Column {
        routers,
        r,
        first,
        count,
    } = column;
    let mut done = 0;
    'pages: while done < count {
        let place = place_in(routers, r, first + done);
        done += write_some(alloc, chunks, place, stride(routers), code, count - done)?;
    }
    Ok(())
}

/// What the first chunk of a run had, and in how many chunks of it another code was put.
#[derive(Clone, Copy, Debug, PartialEq, Eq)]
struct Turned {
    before: u16,
    count: u64,
}

/// What is put into a run: a code, at one place of each chunk that stands so much further on than the one before, in at
/// most so many.
#[derive(Clone, Copy, Debug, PartialEq, Eq)]
struct Turn {
    stride: u64,
    lane: u32,
    code: u16,
    most: u64,
}

/// Answers the code of the first chunk of a run, and where that is another one than that of a turn, puts this one there
/// and into the chunks behind it that the turn is of.
fn turn_each(run: &mut [CodeChunk], turn: &Turn) -> Turned
    requires some { 0 < turn.now.stride }
    requires few { turn.now.stride < 2 ^ 32 }
    requires lane { turn.now.lane < 8 }
    ensures before { 0 < length run.old → result.before ≡ lane_at run.old 0 turn.now.lane }
    ensures few { result.count ≤ turned_count result.before turn.now.code turn.now.most }
    ensures written { AreWritten run.old run.new 0 turn.now.stride turn.now.lane result.count turn.now.code }
{
    let Turn {
        stride,
        lane,
        code,
        most,
    } = *turn;
    let Some(chunk) = run.first() else {
        return Turned {
            before: 0,
            count: 0,
        };
    };
    let before = chunk.codes[lane as usize];
    if before == code {
        return Turned { before, count: 0 };
    }
    Turned {
        before,
        count: put_each(run, stride, lane, code, most),
    }
}

/// Answers the code at a place, and where that is another one than this, puts this one there and at the same place of each
/// chunk that stands so much further on than the one before, up to the end of the first one's page and at most so often.
/// After `OutOfMemory`, for which alone it fails, all codes are as before.
fn turn_some(
    alloc: Global,
    chunks: &mut Pages<CodeChunk>,
    place: Place,
    stride: u64,
    code: u16,
    most: u64,
) -> Result<Turned, OutOfMemory>
    requires chunk { place.chunk < length chunks.old }
    requires lane { place.lane < 8 }
    requires apart { 0 < stride }
    requires near { stride < 2 ^ 32 }
    ensures before { IfOk result (λ turned. turned.before ≡ lane_at chunks.old place.chunk place.lane) }
    ensures few { IfOk result (λ turned. turned.count ≤ turned_count turned.before code most) }
    ensures written { IfOk result (λ turned.
        AreWritten chunks.old chunks.new place.chunk stride place.lane turned.count code) }
    ensures same { OnErr result (chunks.new ≡ chunks.old) }
{
    let turn = Turn {
        stride,
        lane: place.lane,
        code,
        most,
    };
    chunks.change_run(alloc, place.chunk, |run: &mut [CodeChunk]| {
        turn_each(run, &turn)
    })
}

/// Answers the first code of a column, and where that is another one than this, puts this one at each place of the column,
/// page by page. Where it fails, for which want of memory is the one cause, it may stand at the first of them.
pub fn turn_column(
    alloc: Global,
    chunks: &mut Pages<CodeChunk>,
    column: Column,
    code: u16,
) -> Result<u16, OutOfMemory>
    requires router { column.r.0 < column.routers }
    requires some { 0 < column.count }
    requires atoms { column.first + column.count ≤ 2 ^ 32 }
    requires inside { (column.first + column.count) * stride_of column.routers ≤ length chunks.old }
    ensures before { IfOk result (λ before. before ≡ code_in column.routers chunks.old column.first column.r.0) }
    ensures all { IfOk result (λ before. IsColumnWritten column.routers column.r.0 column.first chunks.old chunks.new
        (turned_count before code column.count) code) }
    ensures long { length chunks.new ≡ length chunks.old }
{
    let Column {
        routers,
        r,
        first,
        count,
    } = column;
    let place = place_in(routers, r, first);
    let turned = turn_some(alloc, chunks, place, stride(routers), code, count)?;
    if turned.before == code {
        return Ok(turned.before);
    }
    let rest = Column {
        routers,
        r,
        first: first + turned.count,
        count: count - turned.count,
    };
    write_column(alloc, chunks, rest, code)?;
    Ok(turned.before)
}
