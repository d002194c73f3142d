//! The statuses of links.

ghost use Rattle.std.specs.Prelude.{◌≡◌};
ghost use Rattle.wl_setup.specs.Status.{status_of, status_beside, is_success};

/// The link is set up.
pub const SUCCESS: u16 = 0;

/// Refused for no reason of the link's own: the carrying link is refused, or the request comes from a
/// station that is associated and isn't a repetition.
pub const UNSPECIFIED_FAILURE: u16 = 1;

/// Declined: the AP doesn't accept the link, or its radio is off there.
pub const REQUEST_DECLINED: u16 = 37;

/// Refused: the address isn't that of the station on this link.
pub const INVALID_PARAMETERS: u16 = 38;

/// What an asked link deserves: by whether the address asked with is the station's there, whether the
/// AP accepts the link, and whether its radio is on there.
pub(crate) fn status_of(known: bool, accepted: bool, powered: bool) -> u16
    ensures { result ≡ status_of known accepted powered }
{
    if !known {
        INVALID_PARAMETERS
    } else if !(accepted && powered) {
        REQUEST_DECLINED
    } else {
        SUCCESS
    }
}

/// The status that the link gets, by whether the carrying link succeeds: where it doesn't, no link does.
pub(crate) fn status_beside(carried: bool, status: u16) -> u16
    ensures { result ≡ status_beside carried status }
{
    if !carried && status == SUCCESS {
        UNSPECIFIED_FAILURE
    } else {
        status
    }
}

/// Whether a link's status is there and is success.
pub(crate) fn is_success(status: Option<u16>) -> bool
    ensures { result ≡ is_success status }
{
    match status {
        Some(status) => status == SUCCESS,
        None => false,
    }
}
