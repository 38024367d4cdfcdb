//! Guesses of the codes of edges.

use crate::codes::Edge;
use base::{OutOfMemory, Target};
use std::alloc::Global;

/// How many guesses there are.
const GUESSES: usize = 1_024;

/// For each of some numbers, each of which some edges have, a code that was found for such an edge. A guess may be wrong,
/// so whoever takes one looks at the code's edge. There are none until the first is kept.
#[derive(Drop)]
pub struct Guesses {
    codes: Option<Vec<u32>>,
}

impl Guesses {
    /// No guesses, which take no memory.
    pub fn new() -> Guesses {
        Guesses { codes: None }
    }

    /// A guess of an edge's code.
    pub fn guess(&self, edge: Edge) -> u32 {
        let Some(codes) = &self.codes else {
            return 0;
        };
        codes.get(number_of(edge)).copied().unwrap_or(0)
    }

    /// Keeps the code of an edge for the next guess. Where there is no memory for that nothing is kept.
    pub fn keep(&mut self, alloc: Global, edge: Edge, code: u32) {
        if self.codes.is_none() {
            self.codes = no_guesses(alloc).ok();
        }
        put(&mut self.codes, number_of(edge), code);
    }
}

/// Puts a guess at a place, if there is such a place.
fn put(codes: &mut Option<Vec<u32>>, place: usize, code: u32) {
    let Some(codes) = codes else {
        return;
    };
    if let Some(guess) = codes.get_mut(place) {
        *guess = code;
    }
}

/// A guess of 0 for each number.
fn no_guesses(alloc: Global) -> Result<Vec<u32>, OutOfMemory> {
    let mut codes = Vec::new(alloc);
    codes.resize(GUESSES, 0)?;
    Ok(codes)
}

/// A number that some edges have, below the number of guesses.
fn number_of(edge: Edge) -> usize {
    let kind = match edge.target {
        Target::NoRoute => 1u32,
        Target::Dropped(_) => 2,
        Target::Local => 3,
        Target::Exit(interface) => interface.wrapping_mul(2).wrapping_add(4),
        Target::OnLink(interface) => interface.wrapping_mul(2).wrapping_add(5),
        Target::To(_, link) => u32::from(link.0).wrapping_mul(3).wrapping_add(6),
        Target::LinkDown(link) => u32::from(link.0),
    };
    (edge.router.wrapping_mul(37).wrapping_add(kind) % 1_024) as usize
}
