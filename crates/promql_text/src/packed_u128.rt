//! Whole numbers that are kept in halves of halves.
//!
//! A `u128` is aligned to 16 bytes, and so is what holds one. In parts of two bytes, the lowest first, a number takes 24
//! bytes in place of 48, and each node of a tree takes less, since a node may hold two numbers.

ghost use Rattle.std.specs.Prelude.{◌≡◌};

use std::fmt;
use std::hash::{Hash, Hasher};
use std::marker::Model;

/// A whole number below 2^128 in two halves.
#[derive(Clone, Copy, Eq, Drop)]
pub(crate) struct PackedU128 {
    low: Halves64,
    high: Halves64,
}

impl Model for PackedU128 {
    ghost use Rattle.std.specs.Prelude.{ℕ, ◌+◌, ◌*◌, ◌/◌, ◌%◌, ◌^◌, ◌<◌};
    ghost use Rattle.std.proofs.lemmas.Nat.{div-mul-add, mod-mul-add};

    ghost Value = { ℕ };

    ghost view = { λ h. h.high * 2 ^ 64 + h.low };

    ghost invariant = { λ h. (h.high < 2 ^ 64) × (h.low < 2 ^ 64) };

    ghost inverse = { λ n. record { high = n / 2 ^ 64; low = n % 2 ^ 64 } };

    ghost inverse_ok = { λ h below i. record {
      high = div-mul-add h.high (2 ^ 64) h.low below.1 i;
      low = mod-mul-add h.high (2 ^ 64) h.low below.1 i;
    } };
}

impl PackedU128 {
    /// The number in halves.
    pub(crate) const fn new(n: u128) -> PackedU128
        ensures { result ≡ n }
    {
        PackedU128 {
            low: Halves64::new((n % (1 << 64)) as u64),
            high: Halves64::new((n / (1 << 64)) as u64),
        }
    }

    /// The number.
    pub(crate) fn get(self) -> u128
        ensures { result ≡ self }
    {
        u128::from(self.high.get()) * (1 << 64) + u128::from(self.low.get())
    }
}

impl PartialEq for PackedU128 {
    ghost use Rattle.std.specs.Prelude.{◌==◌};
    ghost use Rattle.std.proofs.Common.{rules};
    ghost use Rattle.std.specs.Cmp.Rules.{comparing};

    ghost eq = { ◌==◌ };

    ghost laws = { Prim.search (comparing, rules) };

    fn eq(&self, other: &PackedU128) -> bool {
        self.get() == other.get()
    }
}

impl Hash for PackedU128 {
    ghost use Rattle.std.proofs.Common.{rules};
    ghost use Rattle.std.specs.Cmp.Rules.{hashing};
    ghost use Rattle.std.specs.Hash as fed;

    ghost hash_input = { λ h. fed.u128 h };

    ghost respects_eq = { Prim.search (hashing, rules) };

    fn hash<H: Hasher>(&self, state: &mut H) {
        self.get().hash(state);
    }
}

impl fmt::Debug for PackedU128 {
    fn fmt<W: fmt::Write>(&self, f: &mut fmt::Formatter<W>) -> fmt::Result {
        self.get().fmt(f)
    }
}

/// A whole number below 2^64 in two halves.
#[derive(Clone, Copy, PartialEq, Eq, Drop)]
struct Halves64 {
    low: Halves32,
    high: Halves32,
}

impl Model for Halves64 {
    ghost use Rattle.std.specs.Prelude.{ℕ, ◌+◌, ◌*◌, ◌/◌, ◌%◌, ◌^◌, ◌<◌};
    ghost use Rattle.std.proofs.lemmas.Nat.{div-mul-add, mod-mul-add};

    ghost Value = { ℕ };

    ghost view = { λ h. h.high * 2 ^ 32 + h.low };

    ghost invariant = { λ h. (h.high < 2 ^ 32) × (h.low < 2 ^ 32) };

    ghost inverse = { λ n. record { high = n / 2 ^ 32; low = n % 2 ^ 32 } };

    ghost inverse_ok = { λ h below i. record {
      high = div-mul-add h.high (2 ^ 32) h.low below.1 i;
      low = mod-mul-add h.high (2 ^ 32) h.low below.1 i;
    } };
}

impl Halves64 {
    const fn new(n: u64) -> Halves64
        ensures { result ≡ n }
    {
        Halves64 {
            low: Halves32::new((n % (1 << 32)) as u32),
            high: Halves32::new((n / (1 << 32)) as u32),
        }
    }

    fn get(self) -> u64
        ensures { result ≡ self }
    {
        u64::from(self.high.get()) * (1 << 32) + u64::from(self.low.get())
    }
}

/// A whole number below 2^32 in two halves.
#[derive(Clone, Copy, PartialEq, Eq, Drop)]
struct Halves32 {
    low: u16,
    high: u16,
}

impl Model for Halves32 {
    ghost use Rattle.std.specs.Prelude.{ℕ, ◌+◌, ◌*◌, ◌/◌, ◌%◌, ◌^◌, ◌<◌};
    ghost use Rattle.std.proofs.lemmas.Nat.{div-mul-add, mod-mul-add};

    ghost Value = { ℕ };

    ghost view = { λ h. h.high * 2 ^ 16 + h.low };

    ghost invariant = { λ h. (h.high < 2 ^ 16) × (h.low < 2 ^ 16) };

    ghost inverse = { λ n. record { high = n / 2 ^ 16; low = n % 2 ^ 16 } };

    ghost inverse_ok = { λ h below i. record {
      high = div-mul-add h.high (2 ^ 16) h.low below.1 i;
      low = mod-mul-add h.high (2 ^ 16) h.low below.1 i;
    } };
}

impl Halves32 {
    const fn new(n: u32) -> Halves32
        ensures { result ≡ n }
    {
        Halves32 {
            low: (n % (1 << 16)) as u16,
            high: (n / (1 << 16)) as u16,
        }
    }

    fn get(self) -> u32
        ensures { result ≡ self }
    {
        u32::from(self.high) * (1 << 16) + u32::from(self.low)
    }
}
