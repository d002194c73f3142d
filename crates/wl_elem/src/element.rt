//! Elements (IEEE Std 802.11, 9.4.2.1).

ghost use Rattle.std.specs.Prelude.{◌≡◌, ◌↔◌, ◌≤◌, ℕ, Option, Some, length, IsTrue, IsSome, IfSome};

use crate::bytes::Bytes;
use crate::kind::ListKind;
use crate::known::{EXTENDED, Known, MULTI_LINK, TID_TO_LINK_MAPPING};
use std::marker::Model;

/// An element: its ID, its Element ID Extension where the ID is 255, and its body.
///
/// No element has ID 242, which is a Fragment's. The body has at most 16,777,216 octets: what is
/// longer than a piece is cut into Fragments as it is written, and joined as it is read.
#[derive(Debug, Drop)]
pub struct Element {
    id: u8,
    ext: Option<u8>,
    body: Bytes,
}

impl Model for Element {
    ghost use Rattle.wl_elem.specs.Element.{ElementValue, IsElement};

    ghost Value = { ElementValue };

    ghost view = { λ e. record { id = e.id; ext = e.ext; body = e.body } };

    ghost invariant = { λ e. IsElement (record { id = e.id; ext = e.ext; body = e.body }) };
}

impl Element {
    ghost use Rattle.wl_elem.specs.Element.{ElementValue, has_shape, HasIdentity, body_limit, IsElement};
    ghost use Rattle.wl_elem.specs.Identity.{HasExtension, extension_of, known_as};

    /// The element with these parts. None exactly where the ID is 242, where it is 255 without an
    /// extension, or where it is another with one. The body has at most 16,777,216 octets.
    pub fn new(id: u8, ext: Option<u8>, body: Bytes) -> Option<Element>
        requires { length body ≤ body_limit }
        ensures shape { IsSome result ↔ IsTrue (has_shape id ext) }
        ensures parts { IfSome result (λ e. e ≡ (record { id = id; ext = ext; body = body })) }
    {
        let fits = match ext {
            Some(_) => id == EXTENDED,
            None => id != ListKind::Elements.fragment_id() && id != EXTENDED,
        };
        if fits {
            Some(Element { id, ext, body })
        } else {
            None
        }
    }

    /// The element with these parts, whose shape is known.
    pub(crate) fn of_parts(id: u8, ext: Option<u8>, body: Bytes) -> Element
        requires bound { length body ≤ body_limit }
        requires shape { IsTrue (has_shape id ext) }
        ensures { result ≡ (record { id = id; ext = ext; body = body }) }
    {
        Element { id, ext, body }
    }

    /// The ID: any but 242.
    pub fn id(&self) -> u8
        ensures value { result ≡ self.now.id }
        ensures is_element { IsElement self.now }
    {
        self.id
    }

    /// The Element ID Extension, which is there exactly for ID 255.
    pub fn ext(&self) -> Option<u8>
        ensures value { result ≡ self.now.ext }
        ensures is_element { IsElement self.now }
    {
        self.ext
    }

    /// Which element it is of those that are decoded where they stand in a list. None where it is
    /// another.
    pub fn known(&self) -> Option<Known>
        ensures kind { result ≡ known_as self.now }
        ensures identity { IfSome result (λ known. HasExtension self.now (extension_of known)) }
    {
        if self.has_identity(EXTENDED, Some(TID_TO_LINK_MAPPING)) {
            return Some(Known::TidToLinkMapping);
        }
        if self.has_identity(EXTENDED, Some(MULTI_LINK)) {
            return Some(Known::MultiLink);
        }
        None
    }

    /// What is true of every element. It does nothing else.
    pub fn facts(&self)
        ensures { IsElement self.now }
    {
        let _ = &self.id;
    }

    /// Whether the element has this ID and this extension, or none.
    pub fn has_identity(&self, id: u8, ext: Option<u8>) -> bool
        ensures { IsTrue result ↔ HasIdentity self.now id ext }
    {
        self.id == id && self.ext == ext
    }

    /// The octets after the Length, or after the extension where there is one.
    pub fn body(&self) -> &[u8]
        ensures value { result.now ≡ self.now.body }
        ensures is_element { IsElement self.now }
    {
        self.body.as_slice()
    }
}
