ghost use Rattle.std.specs.Prelude.{◌≡◌, ◌<◌, ◌+◌, ◌^◌, length, ◌==◌, Ok, Err, IfOk, MatchResult};
ghost use Rattle.mvm_base.specs.Place.{Place, Takes, run};

use byteorder::{BigEndian, ByteOrder};
use std::marker::Model;

/// Bytes that are read front to back, seen as what is left of them and the place where that begins. No
/// call takes memory. An `Err` carries the place, comes exactly where fewer bytes are left than are asked for,
/// and leaves the cursor where it was.
#[derive(Debug, Drop)]
pub struct Cursor<'a> {
    rest: &'a [u8],
    at: u32,
}

impl<'a> Model for Cursor<'a> {
    ghost use Rattle.std.specs.Prelude.{◌<◌, ◌+◌, ◌^◌, length};
    ghost use Rattle.mvm_base.specs.Place.{Place};

    ghost Value = { Place };

    ghost view = { λ c. record { at = c.at; rest = c.rest.now } };

    ghost invariant = { λ c. c.at + length c.rest.now < 2 ^ 32 };
}

impl<'a> Cursor<'a> {
    /// A cursor before the first of these bytes, of which there are fewer than 2^32.
    pub fn new(bytes: &'a [u8]) -> Cursor<'a>
        requires { length bytes.now < 2 ^ 32 }
        ensures { result ≡ record { at = 0; rest = bytes.now } }
    {
        Cursor { rest: bytes, at: 0 }
    }

    /// A cursor before the first of these bytes, which stands at a place of some longer list of bytes.
    pub fn from_place(bytes: &'a [u8], place: u32) -> Cursor<'a>
        requires { place + length bytes.now < 2 ^ 32 }
        ensures { result ≡ record { at = place; rest = bytes.now } }
    {
        Cursor {
            rest: bytes,
            at: place,
        }
    }

    /// The place of the next byte.
    pub fn place(&self) -> u32
        ensures value { result ≡ self.now.at }
        // No place behind the cursor is beyond 32 bits.
        ensures bound { result + length self.now.rest < 2 ^ 32 }
    {
        self.at
    }

    /// Whether nothing is left.
    pub fn is_at_end(&self) -> bool
        ensures { result ≡ (length self.now.rest == 0) }
    {
        self.rest.is_empty()
    }

    /// The next `n` bytes.
    #[tactic(auto, unfolding(crate::specs::Place::run))]
    pub fn bytes(&mut self, n: u32) -> Result<&'a [u8], u32>
        ensures len { IfOk result (λ x. length x.now ≡ n) }
        ensures takes { MatchResult result (λ x. run n self.old ≡ Ok (x.now, self.new)) (λ at. (run n self.old ≡ Err at) × (self.new ≡ self.old)) }
    {
        let n = n as usize;
        if self.rest.len() < n {
            return Err(self.at);
        }
        let (front, rest) = self.rest.split_at(n);
        self.rest = rest;
        self.at += n as u32;
        Ok(front)
    }

    /// The next byte.
    pub fn u1(&mut self) -> Result<u8, u32>
        ensures { Takes 1 result self.old self.new }
    {
        let front = self.bytes(1)?;
        Ok(front[0])
    }

    /// The number in the next two bytes, the high byte first.
    pub fn u2(&mut self) -> Result<u16, u32>
        ensures { Takes 2 result self.old self.new }
    {
        let front = self.bytes(2)?;
        Ok(BigEndian::read_u16(front))
    }

    /// The number in the next four bytes, the high byte first.
    pub fn u4(&mut self) -> Result<u32, u32>
        ensures { Takes 4 result self.old self.new }
    {
        let front = self.bytes(4)?;
        Ok(BigEndian::read_u32(front))
    }
}
