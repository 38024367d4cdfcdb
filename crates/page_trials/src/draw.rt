//! Numbers that look as if they were drawn, and are the same in each run.

/// The draw after this one.
pub fn next_draw(draw: u64) -> u64 {
    draw.wrapping_mul(6364136223846793005)
        .wrapping_add(1442695040888963407)
}
