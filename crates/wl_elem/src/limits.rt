//! Limits that hold everywhere.

/// At most so many octets are handed in as one body, or written as one: 16 MiB.
pub const BODY_LIMIT: usize = 16_777_216;

/// An MSDU has at most so many octets (IEEE Std 802.11, 9.2.4.8).
pub const MSDU_LIMIT: usize = 2_304;
