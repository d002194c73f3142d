//! The status of each link.

use wl_elem::List;

/// The status of one link in a Link Reconfiguration Response.
#[derive(Clone, Copy, Debug, PartialEq, Eq)]
pub struct LinkStatus {
    /// The octet with the link ID.
    pub link: u8,
    /// The status code.
    pub status: u16,
}

/// A list of links with their statuses, in order.
pub type LinkStatuses = List<LinkStatus>;
