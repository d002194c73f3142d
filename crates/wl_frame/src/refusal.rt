//! Why octets aren't a frame that is taken.

ghost use Rattle.std.specs.Prelude.{◌≡◌, ◌≤◌, ◌<◌, length};
ghost use Rattle.wl_frame.specs.Refusals.{first_holding, refusal_of};
ghost use Rattle.wl_frame.specs.Reading.{refusal_in, type_tests, control_tests, direction_tests, flag_tests, qos_tests, ccmp_tests};

use crate::octets::{has_ccmp, header_end, is_association, is_data};
use wl_elem::{Refusal, Why, has_bit};

/// The tests of version and type.
fn test_type(first: u8) -> Result<(), Refusal>
    ensures { refusal_in result ≡ first_holding (type_tests first) }
{
    if first % 4 != 0 {
        return Err(Refusal::at(0, Why::Version));
    }
    if !has_ccmp(first) && !is_association(first) {
        return Err(Refusal::at(0, Why::TypeLeftOut));
    }
    Ok(())
}

/// The tests of ToDS and FromDS.
fn test_direction(qos: bool, to_ds: bool, from_ds: bool) -> Result<(), Refusal>
    ensures { refusal_in result ≡ first_holding (direction_tests qos to_ds from_ds) }
{
    match (qos, to_ds, from_ds) {
        (true, true, true) => Err(Refusal::at(1, Why::FourAddress)),
        (true, false, false) => Err(Refusal::at(1, Why::NoDs)),
        (false, true, _) | (false, _, true) => Err(Refusal::at(1, Why::DsInManagement)),
        _ => Ok(()),
    }
}

/// The tests of the other flags.
fn test_flags(ccmp: bool, association: bool, flags: u16) -> Result<(), Refusal>
    ensures { refusal_in result ≡ first_holding (flag_tests ccmp association flags) }
{
    if has_bit(flags, 0x04) {
        return Err(Refusal::at(1, Why::Fragmented));
    }
    let protected = has_bit(flags, 0x40);
    if ccmp && !protected {
        return Err(Refusal::at(1, Why::NotProtected));
    }
    if association && protected {
        return Err(Refusal::at(1, Why::ProtectedSetup));
    }
    if has_bit(flags, 0x80) {
        return Err(Refusal::at(1, Why::Order));
    }
    Ok(())
}

/// The tests of the QoS control, which data has.
fn test_qos(qos: bool, octets: &[u8]) -> Result<(), Refusal>
    ensures { refusal_in result ≡ first_holding (qos_tests qos octets.now) }
{
    if !qos {
        return Ok(());
    }
    if octets.len() < 26 {
        return Err(Refusal::at(24, Why::Short));
    }
    if octets[24] % 16 >= 8 {
        return Err(Refusal::at(24, Why::TidLeftOut));
    }
    if has_bit(u16::from(octets[24]), 0x80) {
        return Err(Refusal::at(24, Why::Amsdu));
    }
    Ok(())
}

/// The tests of the CCMP header, which protected frames have behind the header's end.
fn test_ccmp(ccmp: bool, octets: &[u8], end: usize) -> Result<(), Refusal>
    requires { end ≤ 26 }
    ensures { refusal_in result ≡ first_holding (ccmp_tests ccmp octets.now end) }
{
    if !ccmp {
        return Ok(());
    }
    if octets.len() < end + 8 {
        return Err(Refusal::at(end, Why::Short));
    }
    if !has_bit(u16::from(octets[end + 3]), 0x20) {
        return Err(Refusal::at(end + 3, Why::NoExtIv));
    }
    Ok(())
}

/// The tests of the first two octets.
fn test_control(first: u8, flags: u16) -> Result<(), Refusal>
    ensures { refusal_in result ≡ first_holding (control_tests first flags) }
{
    test_type(first)?;
    test_direction(is_data(first), has_bit(flags, 0x01), has_bit(flags, 0x02))?;
    test_flags(has_ccmp(first), is_association(first), flags)
}

/// All tests, in order.
#[tactic(auto, unfolding(crate::specs::Refusals::refusal_of))]
pub fn test_frame(octets: &[u8]) -> Result<(), Refusal>
    ensures { refusal_in result ≡ refusal_of octets.now }
{
    if octets.len() < 24 {
        return Err(Refusal::at(0, Why::Short));
    }
    let first = octets[0];
    test_control(first, u16::from(octets[1]))?;
    if octets[22] % 16 != 0 {
        return Err(Refusal::at(22, Why::Fragmented));
    }
    test_qos(is_data(first), octets)?;
    test_ccmp(has_ccmp(first), octets, header_end(first))
}
