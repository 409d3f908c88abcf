//! The bounds that every layer speaks of (this product's own).

/// The most containers of a charging data request that an SMF freezes.
pub const MOST_CONTAINERS: usize = 500;

/// The most rating groups of a session.
pub const MOST_GROUPS: usize = 16;

/// The most usage reports of a session.
pub const MOST_REPORTS: u32 = 1 << 20;

/// The most entries of a list in a charging data request that is read.
pub const MOST_ENTRIES: usize = 1000;
