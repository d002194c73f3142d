//! First octets, and what they say.

ghost use Rattle.std.specs.Prelude.{◌≡◌, ◌≤◌};
ghost use Rattle.wl_frame.specs.Refusals.{is_data, is_association, has_ccmp, header_end};

/// The first octet of QoS Data.
pub const QOS_DATA: u8 = 0x88;
/// The first octet of Action.
pub const ACTION: u8 = 0xd0;
/// The first octet of an Association Request.
pub const ASSOC_ASK: u8 = 0x00;
/// The first octet of an Association Response.
pub const ASSOC_REPLY: u8 = 0x10;

/// Whether it is the first octet of data.
pub fn is_data(first: u8) -> bool
    ensures { result ≡ is_data first }
{
    first == QOS_DATA
}

/// Whether it is the first octet of a frame that is protected.
pub fn has_ccmp(first: u8) -> bool
    ensures { result ≡ has_ccmp first }
{
    first == QOS_DATA || first == ACTION
}

/// Whether it is the first octet of an association frame.
pub fn is_association(first: u8) -> bool
    ensures { result ≡ is_association first }
{
    first == ASSOC_ASK || first == ASSOC_REPLY
}

/// Where the header of a frame with this first octet ends.
pub fn header_end(first: u8) -> usize
    ensures value { result ≡ header_end first }
    ensures bound { result ≤ 26 }
    ensures least { 24 ≤ result }
{
    if first == QOS_DATA { 26 } else { 24 }
}
