// The addresses that the guest has.
ghost use Rattle.std.specs.Prelude.{◌≡◌, ◌<◌, ◌^◌, ◌↔◌, IsTrue};

use crate::units::{LINE_BYTES, LineNo, PAGE_BYTES};
use std::marker::Model;

/// The guest's span: `pages` pages of 4,096 bytes, from page `base` of the address space on.
#[derive(Clone, Copy, Debug)]
pub struct Geometry {
    pub base: u32,
    pub pages: u32,
}

impl Model for Geometry {
    ghost use Rattle.std.specs.Prelude.{◌+◌, ◌≤◌};
    ghost use Rattle.hier_types.specs.Span.{Span};

    ghost Value = { Span };

    ghost view = { λ g. record { base = g.base; pages = g.pages } };

    // Every address past the span fits 32 bits.
    ghost invariant = { λ g. g.base + g.pages ≤ 1048575 };

    ghost inverse = { λ s. record { base = s.base; pages = s.pages } };
}

impl Geometry {
    ghost use Rattle.hier_types.specs.Span.{first, past, has, Has, line_at};

    /// The first address of the span.
    pub fn first(&self) -> u32
        ensures first { result ≡ first self.now }
        ensures fits { past self.now < 2 ^ 32 }
    {
        self.base * PAGE_BYTES
    }

    /// The address behind the last one of the span.
    pub fn past(&self) -> u32
        ensures past { result ≡ past self.now }
        ensures fits { past self.now < 2 ^ 32 }
    {
        (self.base + self.pages) * PAGE_BYTES
    }

    /// Whether the span has the address.
    pub fn has(&self, at: u32) -> bool
        ensures test { result ≡ has self.now at }
        ensures inside { IsTrue result ↔ Has self.now at }
    {
        self.first() <= at && at < self.past()
    }

    /// The line of an address of the span.
    pub fn line_of(&self, at: u32) -> LineNo
        requires { Has self.now at }
        ensures { result.0 ≡ line_at self.now at }
    {
        LineNo((at - self.first()) / LINE_BYTES)
    }
}
