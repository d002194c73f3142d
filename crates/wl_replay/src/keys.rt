//! The keys that a receiver holds.

ghost use Rattle.std.specs.Prelude.{◌≡◌, ◌+◌, ◌^◌, ◌<◌, ◌==◌, ℕ, is_err, IfSome, IfNone, IfOk, OnOk, OnErr};
ghost use Rattle.wl_replay.specs.Keys.{Holds, held, key_id_of};

use std::marker::Model;
use wl_elem::KeysSpent;

/// The numbers of the temporal keys that a receiver holds: the newest, and the one before it where
/// there is one. Frames sealed just before a turn still open with the older one.
#[derive(Clone, Copy, Debug, PartialEq, Eq)]
pub struct KeyRing {
    newest: u16,
}

impl Model for KeyRing {
    ghost use Rattle.std.specs.Prelude.{ℕ};

    ghost Value = { ℕ };

    ghost view = { λ k. k.newest };

    ghost inverse = { λ n. record { newest = n } };
}

impl KeyRing {
    /// The ring of this newest key.
    pub fn new(newest: u16) -> KeyRing
        ensures { result ≡ newest }
    {
        KeyRing { newest }
    }

    /// Installs the next key, which is the newest then, and gives its number. `KeysSpent` exactly at
    /// key 65,535; nothing changes then.
    pub fn install(&mut self) -> Result<u16, KeysSpent>
        ensures spent { is_err result ≡ (self.old == 65535) }
        ensures key { IfOk result (λ key. key ≡ self.old + 1) }
        ensures installed { OnOk result (self.new ≡ self.old + 1) }
        ensures unchanged { OnErr result (self.new ≡ self.old) }
    {
        if self.newest == u16::MAX {
            return Err(KeysSpent);
        }
        self.newest += 1;
        Ok(self.newest)
    }

    /// The newest key.
    pub fn newest(&self) -> u16
        ensures value { result ≡ self.now }
        ensures bound { result < 2 ^ 16 }
    {
        self.newest
    }

    /// The held key of this key ID: key number k has key ID k mod 2. None exactly where no held key has
    /// it, as at 2 and 3.
    pub fn held(&self, key_id: u8) -> Option<u16>
        ensures value { result ≡ held self.now key_id }
        ensures held { IfSome result (Holds self.now) }
        ensures id { IfSome result (λ key. key_id_of key ≡ key_id) }
        ensures none { IfNone result ((key : ℕ) → Holds self.now key → key_id_of key ≡ key_id → ⊥) }
    {
        if self.newest % 2 == u16::from(key_id) {
            return Some(self.newest);
        }
        if self.newest > 0 && (self.newest - 1) % 2 == u16::from(key_id) {
            return Some(self.newest - 1);
        }
        None
    }
}
