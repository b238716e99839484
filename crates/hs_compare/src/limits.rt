//! The greatest numbers of a comparison (`docs/FORMATS.md`, "The program").

/// Head sampling keeps at the least one trace in so many. It keeps at the most each one.
pub const MAX_ONE_IN: u32 = 1_000_000;

/// The most records that a ring has room for. It has room for one at least.
pub const MAX_ROOM: u32 = 262_144;
