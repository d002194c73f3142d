//! The two lists whose items are cut in one way.

ghost use Rattle.std.specs.Prelude.{◌≡◌};
ghost use Rattle.wl_elem.specs.Cutting.{fragment_id};
ghost use Rattle.wl_elem.specs.Row.{truncated, is_extended};

use crate::known::EXTENDED;
use crate::why::Why;

/// Which list a piece stands in: its items are cut alike, and differ in the ID of a Fragment.
#[derive(Clone, Copy, Debug, PartialEq, Eq)]
pub enum ListKind {
    /// A list of elements: Fragment is 242, and ID 255 has an extension.
    Elements,
    /// The subelements of a Multi-Link element: Fragment is 254.
    Subelements,
}

impl ListKind {
    /// The ID of a Fragment in such a list.
    pub fn fragment_id(self) -> u8
        ensures { result ≡ fragment_id self }
    {
        match self {
            ListKind::Elements => 242,
            ListKind::Subelements => 254,
        }
    }

    /// Whether a piece of this ID begins with an extension.
    pub fn is_extended(self, id: u8) -> bool
        ensures { result ≡ is_extended self id }
    {
        match self {
            ListKind::Elements => id == EXTENDED,
            ListKind::Subelements => false,
        }
    }

    /// The name for a header or octets that aren't whole.
    pub fn truncated(self) -> Why
        ensures { result ≡ truncated self }
    {
        match self {
            ListKind::Elements => Why::Truncated,
            ListKind::Subelements => Why::SubTruncated,
        }
    }
}
