//! The names of refusals.

ghost use Rattle.std.specs.Prelude.{◌≡◌};
ghost use Rattle.wl_elem.specs.Why.{why_name};

/// Why an input is refused. Each name says which rule was broken first.
#[derive(Clone, Copy, Debug, PartialEq, Eq)]
pub enum Why {
    /// A header, a field or a body isn't whole: fewer octets are left than it takes.
    Truncated,
    /// A Fragment doesn't directly follow a piece of Length 255.
    StrayFragment,
    /// A Fragment has Length 0.
    EmptyFragment,
    /// An element of ID 255 has Length 0, so it has no Element ID Extension.
    NoExtension,
    /// A Multi-Link element's body is shorter than its control word.
    ControlShort,
    /// Common Info has no length octet, or a length below what its presence bits need.
    CommonShort,
    /// Common Info's length passes the end of the body.
    CommonLong,
    /// A link ID is 15, which the standard reserves.
    ReservedLink,
    /// A subelement's header or octets aren't whole.
    SubTruncated,
    /// STA Info has no length octet, or a length below what its control word needs.
    InfoShort,
    /// STA Info's length passes the end of the profile.
    InfoLong,
    /// A TID-To-Link Mapping element has direction 3, which the standard reserves.
    ReservedDirection,
    /// An action body has a category that isn't decoded here.
    UnknownCategory,
    /// An action body has an action that isn't decoded here.
    UnknownAction,
    /// An EML notice has the EMLMR bit, which is left out here.
    EmlmrLeftOut,
    /// An action body has a wrong number of TID-To-Link Mapping elements.
    NoMapping,
    /// A body has a wrong number or a wrong type of Multi-Link elements.
    NoMultiLink,
    /// An earlier profile names the same link.
    RepeatedLink,
    /// A profile's body is shorter than its fixed fields.
    ProfileShort,
    /// A frame is shorter than its header.
    Short,
    /// A frame's protocol version isn't 0.
    Version,
    /// A frame's type or subtype is left out here.
    TypeLeftOut,
    /// A data frame has both ToDS and FromDS.
    FourAddress,
    /// A data frame has neither ToDS nor FromDS.
    NoDs,
    /// A management frame has ToDS or FromDS.
    DsInManagement,
    /// A frame is a fragment of an MSDU or MMPDU.
    Fragmented,
    /// A data or Action frame isn't protected.
    NotProtected,
    /// An association frame is protected.
    ProtectedSetup,
    /// The +HTC/Order bit is set.
    Order,
    /// A data frame has a TID from 8 up.
    TidLeftOut,
    /// A data frame carries an A-MSDU.
    Amsdu,
    /// A CCMP header has no extended IV.
    NoExtIv,
    /// A frame's address or direction isn't the receiver's.
    WrongAddress,
}

impl Why {
    /// The name as it stands in shown texts, spelled as the variant.
    pub fn name(&self) -> &'static str
        ensures { result.now ≡ why_name self.now }
    {
        match self {
            Why::Truncated => "Truncated",
            Why::StrayFragment => "StrayFragment",
            Why::EmptyFragment => "EmptyFragment",
            Why::NoExtension => "NoExtension",
            Why::ControlShort => "ControlShort",
            Why::CommonShort => "CommonShort",
            Why::CommonLong => "CommonLong",
            Why::ReservedLink => "ReservedLink",
            Why::SubTruncated => "SubTruncated",
            Why::InfoShort => "InfoShort",
            Why::InfoLong => "InfoLong",
            Why::ReservedDirection => "ReservedDirection",
            Why::UnknownCategory => "UnknownCategory",
            Why::UnknownAction => "UnknownAction",
            Why::EmlmrLeftOut => "EmlmrLeftOut",
            Why::NoMapping => "NoMapping",
            Why::NoMultiLink => "NoMultiLink",
            Why::RepeatedLink => "RepeatedLink",
            Why::ProfileShort => "ProfileShort",
            Why::Short => "Short",
            Why::Version => "Version",
            Why::TypeLeftOut => "TypeLeftOut",
            Why::FourAddress => "FourAddress",
            Why::NoDs => "NoDs",
            Why::DsInManagement => "DsInManagement",
            Why::Fragmented => "Fragmented",
            Why::NotProtected => "NotProtected",
            Why::ProtectedSetup => "ProtectedSetup",
            Why::Order => "Order",
            Why::TidLeftOut => "TidLeftOut",
            Why::Amsdu => "Amsdu",
            Why::NoExtIv => "NoExtIv",
            Why::WrongAddress => "WrongAddress",
        }
    }
}
