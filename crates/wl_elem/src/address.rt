//! MAC addresses.

ghost use Rattle.std.specs.Prelude.{◌≡◌, length};

use std::marker::Model;

/// A MAC address: six octets, in the order of transmission.
#[derive(Clone, Copy, Debug, PartialEq, Eq)]
pub struct MacAddr {
    octets: [u8; 6],
}

impl Model for MacAddr {
    ghost use Rattle.std.specs.Prelude.{◌≡◌, ℕ, List, length};

    ghost Value = { List ℕ };

    ghost view = { λ m. m.octets };

    ghost invariant = { λ m. length m.octets ≡ 6 };

    ghost inverse = { λ o. record { octets = o } };
}

impl MacAddr {
    /// The address of these octets.
    pub fn new(octets: [u8; 6]) -> MacAddr
        ensures { result ≡ octets }
    {
        MacAddr { octets }
    }

    /// Its octets.
    pub fn octets(&self) -> [u8; 6]
        ensures value { result ≡ self.now }
        ensures six { length result ≡ 6 }
    {
        self.octets
    }
}
