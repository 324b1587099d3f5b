//! The greatest number of goals. The definitions have a number of their own in `specs/Limits.antt`,
//! to which `laws::limits` ties it.

/// The greatest number of goals of a file that [`load_file`](crate::load_file) gives.
pub const GREATEST_LOAD: u32 = 10_000;
