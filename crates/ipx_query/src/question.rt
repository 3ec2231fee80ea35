//! What routers are asked.

/// What routers are asked.
#[derive(Clone, Copy, PartialEq, Eq)]
pub enum TableQuery {
    /// Which networks they know: a RIP request for all networks.
    Networks,
    /// Which services of a type they know, or of all types if it is FFFF: a general SAP query.
    Services(u16),
}
