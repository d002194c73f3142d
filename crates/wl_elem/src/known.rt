//! The elements that are decoded here, and their identities.

ghost use Rattle.std.specs.Prelude.{◌≡◌};
ghost use Rattle.wl_elem.specs.Identity.{extension_of};

/// The ID of elements that have an Element ID Extension (IEEE Std 802.11, 9.4.2.1).
pub const EXTENDED: u8 = 255;
/// The Element ID Extension of Non-Inheritance (IEEE Std 802.11, 9.4.2.240).
pub const NON_INHERITANCE: u8 = 56;
/// The Element ID Extension of Multi-Link (IEEE Std 802.11be, 9.4.2.312).
pub const MULTI_LINK: u8 = 107;
/// The Element ID Extension of TID-To-Link Mapping (IEEE Std 802.11be, 9.4.2.314).
pub const TID_TO_LINK_MAPPING: u8 = 109;

/// An element that is decoded where it stands in a list.
#[derive(Clone, Copy, Debug, PartialEq, Eq)]
pub enum Known {
    /// TID-To-Link Mapping.
    TidToLinkMapping,
    /// Multi-Link.
    MultiLink,
}

impl Known {
    /// Its Element ID Extension.
    pub fn extension(self) -> u8
        ensures { result ≡ extension_of self }
    {
        match self {
            Known::TidToLinkMapping => TID_TO_LINK_MAPPING,
            Known::MultiLink => MULTI_LINK,
        }
    }
}
