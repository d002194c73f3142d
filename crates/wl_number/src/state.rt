//! The numbers that an end gives next.

ghost use Rattle.std.specs.Prelude.{◌≡◌, ◌+◌, ◌-◌, ◌^◌, ◌<◌, ◌≤◌, ◌==◌, ◌&&◌, is_err, IfOk, OnOk, OnErr};
ghost use Rattle.wl_number.specs.NumberObject.{InRange, IsNumberObject, made, opened, position_of, is_spent, drawn, after_draw, turned, entered, turned_to};

use crate::numbers::{Numbers, Spent};
use std::marker::Model;
use wl_elem::{KeysSpent, Lane};

/// The last packet number of a key.
const LAST_PN: u64 = 0xffff_ffff_ffff;

/// The next position of each lane, the key in use and the last packet number used under it.
///
/// Under one temporal key the packet number rises with each protected frame and never repeats
/// (IEEE Std 802.11, 12.5.3.3); it begins at 1 again only with the next key.
#[derive(Clone, Copy, Debug, PartialEq, Eq)]
pub struct NumberState {
    positions: [u32; 9],
    key: u16,
    last: u64,
}

impl Model for NumberState {
    ghost use Rattle.wl_number.specs.NumberObject.{NumberObject, IsNumberObject, made};

    ghost Value = { NumberObject };

    ghost view = { λ s. made s.positions s.key s.last };

    ghost invariant = { λ s. IsNumberObject (made s.positions s.key s.last) };

    ghost inverse = { λ o. record { positions = o.positions; key = o.key; last = o.last } };
}

impl NumberState {
    /// Numbers that begin at position 0 of each lane, with this key and this packet number.
    pub fn new(key: u16, next_pn: u64) -> NumberState
        requires some { 1 ≤ next_pn }
        requires bound { next_pn < 2 ^ 48 }
        ensures { result ≡ opened key next_pn }
    {
        NumberState {
            positions: [0; 9],
            key,
            last: next_pn - 1,
        }
    }

    /// The next numbers of a lane: its next position, the key and the next packet number, which
    /// both rise by one. `Spent` exactly where packet number 2^48 - 1 of the key was used; nothing
    /// changes then.
    pub fn next(&mut self, lane: Lane) -> Result<Numbers, Spent>
        requires { position_of self.old lane < 2 ^ 32 - 1 }
        ensures spent { is_err result ≡ is_spent self.old }
        ensures drawn { IfOk result (λ n. n ≡ drawn self.old lane) }
        ensures after { OnOk result (self.new ≡ after_draw self.old lane) }
        ensures range { IfOk result InRange }
        ensures unchanged { OnErr result (self.new ≡ self.old) }
    {
        if self.last == LAST_PN {
            return Err(Spent);
        }
        let place = usize::from(lane.index());
        let pos = self.positions[place];
        self.positions[place] = pos + 1;
        self.last += 1;
        Ok(Numbers {
            pos,
            key: self.key,
            pn: self.last,
        })
    }

    /// Takes a key under which no packet number is used.
    fn take_key(&mut self, key: u16)
        ensures { self.new ≡ made self.old.positions key 0 }
    {
        self.key = key;
        self.last = 0;
    }

    /// Turns to the next key, whose packet numbers begin at 1, and gives it. `KeysSpent` exactly at
    /// key 65,535; nothing changes then.
    pub fn turn(&mut self) -> Result<u16, KeysSpent>
        ensures spent { is_err result ≡ (self.old.key == 65535) }
        ensures key { IfOk result (λ k. k ≡ self.old.key + 1) }
        ensures after { OnOk result (self.new ≡ turned self.old) }
        ensures unchanged { OnErr result (self.new ≡ self.old) }
    {
        if self.key == u16::MAX {
            return Err(KeysSpent);
        }
        self.take_key(self.key + 1);
        Ok(self.key)
    }

    /// Takes account of numbers that were booked on a lane: what is given next is above them. Where
    /// their key is below the own one, only the position counts.
    pub fn entered(&mut self, lane: Lane, n: Numbers)
        requires pos { n.pos < 2 ^ 32 - 1 }
        requires some { 1 ≤ n.pn }
        requires bound { n.pn < 2 ^ 48 }
        ensures { self.new ≡ entered self.old lane n }
    {
        let place = usize::from(lane.index());
        self.positions[place] = self.positions[place].max(n.pos + 1);
        if n.key > self.key {
            self.key = n.key;
            self.last = n.pn;
        } else if n.key == self.key {
            self.last = self.last.max(n.pn);
        }
    }

    /// Takes account of a turn to a key, and gives this key. Where it is above the own one it becomes
    /// it, and its packet numbers begin at 1. `KeysSpent` exactly where both are 65,535.
    pub fn turn_to(&mut self, key: u16) -> Result<u16, KeysSpent>
        ensures spent { is_err result ≡ (self.old.key == 65535 && key == 65535) }
        ensures key { IfOk result (λ k. k ≡ key) }
        ensures after { self.new ≡ turned_to self.old key }
    {
        if self.key == u16::MAX && key == u16::MAX {
            return Err(KeysSpent);
        }
        if key > self.key {
            self.take_key(key);
        }
        Ok(key)
    }

    /// The key in use.
    pub fn key(&self) -> u16
        ensures value { result ≡ self.now.key }
        ensures is_object { IsNumberObject self.now }
    {
        self.key
    }

    /// The next packet number: 1 to 2^48 - 1, or 2^48 where the last one of the key was used.
    pub fn next_pn(&self) -> u64
        ensures value { result ≡ self.now.last + 1 }
        ensures is_object { IsNumberObject self.now }
    {
        self.last + 1
    }

    /// The next position of a lane.
    pub fn position(&self, lane: Lane) -> u32
        ensures value { result ≡ position_of self.now lane }
        ensures is_object { IsNumberObject self.now }
    {
        self.positions[usize::from(lane.index())]
    }
}
