//! A packet that an end has read.

use crate::parcel_origin::Maker;

/// A packet that an end has read. It holds the end, the maker of the packet's origin, and the range
/// of units that all ends sent for the first time between the two.
#[derive(Clone, Copy, Debug, PartialEq, Eq)]
pub struct Reading {
    pub who: usize,
    pub maker: Maker,
    pub from: usize,
    pub to: usize,
    /// It made or joined the end: its entry comes directly after the one that says so.
    pub first: bool,
}
