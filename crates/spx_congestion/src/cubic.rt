//! Cubes, and cube roots (RFC 9438, CUBIC).

/// How many cubed milliseconds make the window grow by one unit. It is 2.5 units per cubed second.
const SCALE: u64 = 400_000_000;

/// The third power.
fn cube(n: u64) -> u64 {
    n.saturating_mul(n).saturating_mul(n)
}

/// The greatest number under 32,768 whose cube is at most `n`.
fn cube_root(n: u64) -> u64 {
    let mut root: u64 = 0;
    let mut step: u64 = 16384;
    for _ in 0..15 {
        let next = root.saturating_add(step);
        if cube(next) <= n {
            root = next;
        }
        step /= 2;
    }
    root
}

/// After how many milliseconds a window has grown by `by` 256ths of a unit.
pub fn grows_in(by: u64) -> u64 {
    cube_root(by.saturating_mul(SCALE) / 256)
}

/// The window at the time `now`, if it is `top` at the time `at`.
pub fn window_at(top: u64, at: u64, now: u64) -> u64 {
    let away = cube(now.abs_diff(at)).saturating_mul(256);
    if now >= at {
        top.saturating_add(away / SCALE)
    } else {
        top.saturating_sub(away.div_ceil(SCALE))
    }
}
