//! What a router counts at each of its ports, and what it dropped last.
//!
//! A [`MeteredRouter`] is a router as a core that keeps these counts.
#![tactic(auto)]

mod last_drops;
mod metered_router;
mod port_counts;

pub use last_drops::{LastDrop, LastDrops};
pub use metered_router::MeteredRouter;
pub use port_counts::PortCounts;
