//! What codes in chunks stand for, of many atoms or of many routers at once.

ghost use Rattle.std.specs.Prelude.{◌≡◌, ℕ, ◌+◌, ◌-◌, ◌*◌, ◌/◌, ◌%◌, ◌<◌, ◌≤◌, ◌^◌, length, slice_index_or};
ghost use Rattle.base.specs.declared.target.Target.{Target};
ghost use Rattle.target_rows.specs.ChunkRows.{lane_at, meant_at, stride_of};

use crate::chunk_rows::Place;
use crate::code_chunk::CodeChunk;
use crate::codes::Edge;
use crate::split_codes::SplitCodes;
use base::Target;

/// Puts into `out`, from its front, what codes of a run stand for: the one of the first chunk, and those of the chunks each
/// of which stands so much further on than the one before, as many as there are and there is room for. It answers how many.
fn read_each(run: &[CodeChunk], stride: u64, lane: u32, edges: &[Edge], out: &mut [Target]) -> usize
    requires apart { 0 < stride }
    requires lane { lane < 8 }
    requires known { (k : ℕ) → k * stride < length run.now → lane_at run.now (k * stride) lane < length edges.now }
    ensures some { 0 < length run.now → 0 < length out.old → 0 < result }
    ensures within { result ≤ length out.old }
    ensures inside { (k : ℕ) → k < result → k * stride < length run.now }
    ensures room { length out.new ≡ length out.old }
    ensures targets { (k : ℕ) → (e : Target) → k < result →
        slice_index_or out.new k e ≡ meant_at edges.now run.now (k * stride) lane }
{
    let step = stride as usize;
    let count = run.len().div_ceil(step).min(out.len());
    let mut k = 0;
    'chunks: while k < count {
        let code = run[k * step].codes[lane as usize];
        out[k] = edges[code as usize].target;
        k += 1;
    }
    count
}

/// Puts into `out`, from its front, what the codes at a place stand for, and at the same place of each chunk that stands so
/// much further on than the one before: as many as stand in the first one's page and there is room for, but one alone once a
/// code of 65,536 or more was written. It answers how many.
pub fn read_column(
    chunks: &SplitCodes,
    place: Place,
    stride: u64,
    edges: &[Edge],
    out: &mut [Target],
) -> usize
    requires chunk { place.chunk < length chunks.now }
    requires lane { place.lane < 8 }
    requires apart { 0 < stride }
    requires room { 0 < length out.old }
    requires known { (k : ℕ) → place.chunk + k * stride < length chunks.now →
        lane_at chunks.now (place.chunk + k * stride) place.lane < length edges.now }
    ensures some { 0 < result }
    ensures within { result ≤ length out.old }
    ensures inside { (k : ℕ) → k < result → place.chunk + k * stride < length chunks.now }
    ensures room { length out.new ≡ length out.old }
    ensures targets { (k : ℕ) → (e : Target) → k < result →
        slice_index_or out.new k e ≡ meant_at edges.now chunks.now (place.chunk + k * stride) place.lane }
{
    let run = chunks.run_from(place.chunk);
    if !run.is_empty() {
        return read_each(run, stride, place.lane, edges, out);
    }
    let code = chunks.code_at(place);
    out[0] = edges[code as usize].target;
    1
}

/// Puts into `out`, from a place on, what the codes of a run stand for, the first chunk of which has the code of that place:
/// as many as there are and there is room for. It answers the place past the last of them.
fn read_run(run: &[CodeChunk], edges: &[Edge], out: &mut [Target], done: usize) -> usize
    requires few { length out.old < 2 ^ 32 }
    requires place { done < length out.old }
    requires some { 0 < length run.now }
    requires known { (r : ℕ) → done ≤ r → r < length out.old → r / 8 - done / 8 < length run.now →
        lane_at run.now (r / 8 - done / 8) (r % 8) < length edges.now }
    ensures some { done < result }
    ensures within { result ≤ length out.old }
    ensures inside { result ≤ (done / 8 + length run.now) * 8 }
    ensures room { length out.new ≡ length out.old }
    ensures front { (r : ℕ) → (e : Target) → r < done → slice_index_or out.new r e ≡ slice_index_or out.old r e }
    ensures targets { (r : ℕ) → (e : Target) → done ≤ r → r < result →
        slice_index_or out.new r e ≡ meant_at edges.now run.now (r / 8 - done / 8) (r % 8) }
{
    let first = done / 8;
    let count = run.len().min(out.len());
    let past = out.len().min((first + count) * 8);
    let mut r = done;
    'codes: while r < past {
        let code = run[r / 8 - first].codes[r % 8];
        out[r] = edges[code as usize].target;
        r += 1;
    }
    past
}

/// Goes on with a row, whose chunks stand from a place on: puts into `out`, from the first router's place on for which that
/// isn't done, what the routers' codes stand for, as many as stand in one page, but one alone once a code of 65,536 or more
/// was written. It answers for how many routers it is done.
fn read_some(
    chunks: &SplitCodes,
    from: u64,
    edges: &[Edge],
    out: &mut [Target],
    done: usize,
) -> usize
    requires few { length out.old < 2 ^ 32 }
    requires place { done < length out.old }
    requires inside { from + stride_of (length out.old) ≤ length chunks.now }
    requires fits { from + stride_of (length out.old) < 2 ^ 64 }
    requires known { (r : ℕ) → r < length out.old →
        lane_at chunks.now (from + r / 8) (r % 8) < length edges.now }
    ensures some { done < result }
    ensures within { result ≤ length out.old }
    ensures room { length out.new ≡ length out.old }
    ensures front { (r : ℕ) → (e : Target) → r < done → slice_index_or out.new r e ≡ slice_index_or out.old r e }
    ensures targets { (r : ℕ) → (e : Target) → done ≤ r → r < result →
        slice_index_or out.new r e ≡ meant_at edges.now chunks.now (from + r / 8) (r % 8) }
{
    let place = Place {
        chunk: from + done as u64 / 8,
        lane: done as u32 % 8,
    };
    let run = chunks.run_from(place.chunk);
    if !run.is_empty() {
        return read_run(run, edges, out, done);
    }
    let code = chunks.code_at(place);
    out[done] = edges[code as usize].target;
    done + 1
}

/// Has `out` be what the codes of a row stand for, by router. The row's chunks stand from a place on.
pub fn read_row(chunks: &SplitCodes, from: u64, edges: &[Edge], out: &mut [Target])
    requires few { length out.old < 2 ^ 32 }
    requires inside { from + stride_of (length out.old) ≤ length chunks.now }
    requires fits { from + stride_of (length out.old) < 2 ^ 64 }
    requires known { (r : ℕ) → r < length out.old →
        lane_at chunks.now (from + r / 8) (r % 8) < length edges.now }
    ensures room { length out.new ≡ length out.old }
    ensures targets { (r : ℕ) → (e : Target) → r < length out.old →
        slice_index_or out.new r e ≡ meant_at edges.now chunks.now (from + r / 8) (r % 8) }
{
    let mut done = 0;
    'pages: while done < out.len() {
        done = read_some(chunks, from, edges, out, done);
    }
}
