//! The kinds of bodies.

ghost use Rattle.std.specs.Prelude.{◌≡◌};
ghost use Rattle.wl_action.specs.Action.{code_of, protected_code, block_ack_code, widths, wrong_number, decodes, is_known};

use wl_elem::{Known, Why};

/// A kind of body.
#[derive(Clone, Copy, Debug, PartialEq, Eq)]
pub enum Code {
    MapAsk,
    MapReply,
    MapTeardown,
    Epcs,
    Eml,
    ReconfAsk,
    ReconfReply,
    AddBaAsk,
    AddBaReply,
    DelBa,
}

/// Whether bodies of this category are decoded here.
pub fn is_known(category: u8) -> bool
    ensures { result ≡ is_known category }
{
    category == 37 || category == 3
}

/// The kind of a Protected EHT action.
fn protected_code(action: u8) -> Option<Code>
    ensures { result ≡ protected_code action }
{
    match action {
        0 => Some(Code::MapAsk),
        1 => Some(Code::MapReply),
        2 => Some(Code::MapTeardown),
        3..=5 => Some(Code::Epcs),
        6 => Some(Code::Eml),
        11 => Some(Code::ReconfAsk),
        12 => Some(Code::ReconfReply),
        _ => None,
    }
}

/// The kind of a Block Ack action.
fn block_ack_code(action: u8) -> Option<Code>
    ensures { result ≡ block_ack_code action }
{
    match action {
        0 => Some(Code::AddBaAsk),
        1 => Some(Code::AddBaReply),
        2 => Some(Code::DelBa),
        _ => None,
    }
}

/// The kind of an action of a category.
pub fn code_of(category: u8, action: u8) -> Option<Code>
    ensures { result ≡ code_of category action }
{
    match category {
        37 => protected_code(action),
        3 => block_ack_code(action),
        _ => None,
    }
}

impl Code {
    /// The octets of each field that is always there behind category and action.
    pub fn widths(self) -> &'static [usize]
        ensures { result.now ≡ widths self }
    {
        match self {
            Code::MapTeardown | Code::Epcs => &[],
            Code::MapAsk | Code::ReconfAsk => &[1],
            Code::MapReply => &[1, 2],
            Code::Eml | Code::ReconfReply => &[1, 1],
            Code::DelBa => &[2, 2],
            Code::AddBaAsk | Code::AddBaReply => &[1, 2, 2, 2],
        }
    }

    /// Which elements behind the fields are decoded.
    pub fn decodes(self) -> Option<Known>
        ensures { result ≡ decodes self }
    {
        match self {
            Code::MapAsk | Code::MapReply => Some(Known::TidToLinkMapping),
            Code::ReconfAsk => Some(Known::MultiLink),
            _ => None,
        }
    }

    /// The refusal of a wrong number of elements.
    pub fn wrong_number(self) -> Why
        ensures { result ≡ wrong_number self }
    {
        match self {
            Code::ReconfAsk => Why::NoMultiLink,
            _ => Why::NoMapping,
        }
    }
}
