//! The limits of a plan: the wide ones, and how many frames may wait by the call that takes no limits.

/// The latest tick at which a plan or a disturbance may end: 2^40.
pub const LATEST_END: u64 = 1_099_511_627_776;

/// The most quanta of a node before the end of a plan: 2^30.
pub const MOST_QUANTA: u64 = 1_073_741_824;

/// The most quanta before the end of a plan of a node that may sample every third quantum: an edge lies in SYNC_SEG, and the sample is at
/// place 3. It has no more changes than others then.
pub const MOST_SHORT_QUANTA: u64 = 805_306_368;

/// The most frames that wait at a node.
pub const MOST_QUEUED: usize = 65_536;

/// The most frames that wait at a node of a plan that is checked without limits, and of plan texts of versions 1 and 2.
pub const FEW_QUEUED: usize = 64;

/// The most disturbances of a plan.
pub const MOST_DISTURBANCES: usize = 256;
