//! Which sources and toolchain this program was built with.
//!
//! The two texts are recorded in the copy that is proved or compiled, by `tests/gate/tree copy`.

/// The commit in which the sources were changed last.
pub const COMMIT: &str = "not recorded";

/// What `rt version` printed.
pub const TOOLCHAIN: &str = "not recorded";
