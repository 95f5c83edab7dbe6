//! Hashes that depend on a seed, so that texts which collide under one seed do not collide under another.
ghost use Rattle.std.specs.Prelude.{◌≡◌, ◌+◌, ◌≤◌, length};
ghost use Rattle.std.specs.Hash.FoldHasher as folding;

use std::hash::{BuildHasher, Hasher};
use std::random::RandomSource;

const START: u64 = 0x243f_6a88_85a3_08d3;

const MULTIPLIER: u64 = 0x9e37_79b9_7f4a_7c15;

const SPREAD: u64 = 0xd134_2543_de82_ef95;

/// What the hashes of a table's keys depend on. Whoever does not know the seed cannot choose keys that collide; so it is made from a random
/// number where texts are not trusted. The order of a table's entries, and whatever is printed, do not depend on it.
#[derive(Clone, Copy)]
pub struct Seed {
    number: u64,
}

impl Seed {
    /// The seed that is used where none is given. Everyone knows it.
    pub const FIXED: Seed = Seed { number: 0 };

    /// Makes a seed from a number. All 64 bits count.
    pub fn new(number: u64) -> Seed
        ensures { result ≡ record { number = number } }
    {
        Seed { number }
    }

    /// Makes a seed from random bytes of the system. If it gives none, the seed is [`Seed::FIXED`].
    pub fn random(rt: &impl RandomSource) -> Seed {
        let mut bytes = [0; 8];
        match rt.fill_bytes(&mut bytes) {
            Ok(()) => Seed::new(u64::from_le_bytes(bytes)),
            Err(_) => Seed::FIXED,
        }
    }
}

impl BuildHasher for Seed {
    ghost use Rattle.irtext_interner.specs.Seeded.{start_of};

    type Hasher = SeededHasher;

    ghost build_hasher = { start_of };

    #[inline(always)]
    fn build_hasher(&self) -> SeededHasher {
        let state = START ^ self.number;
        SeededHasher {
            state,
            multiplier: MULTIPLIER ^ folded_multiply(state, SPREAD),
        }
    }
}

/// A hasher like the `FoldHasher` of `std`, whose first state and whose multiplier come from a seed. It multiplies 16 bytes at a time to
/// 128 bits, and joins the halves by xor. Each factor of a product is joined to a secret number, so no text makes one of them 0, or a power
/// of 2, under all seeds.
#[derive(Clone, Copy)]
pub struct SeededHasher {
    state: u64,
    multiplier: u64,
}

#[inline(always)]
fn folded_multiply(a: u64, b: u64) -> u64
    ensures { result ≡ folding.folded_multiply a b }
{
    let product = a as u128 * b as u128;
    (product & 0xFFFF_FFFF_FFFF_FFFF) as u64 ^ (product >> 64) as u64
}

#[inline(always)]
fn read_u32(bytes: &[u8], at: usize) -> u64
    requires { at + 4 ≤ length bytes.now }
    ensures { result ≡ folding.read_u32 bytes.now at }
{
    u32::from_le_bytes([bytes[at], bytes[at + 1], bytes[at + 2], bytes[at + 3]]) as u64
}

#[inline(always)]
fn read_u64(bytes: &[u8], at: usize) -> u64
    requires { at + 8 ≤ length bytes.now }
    ensures { result ≡ folding.read_u64 bytes.now at }
{
    read_u32(bytes, at) | read_u32(bytes, at + 4) << 32
}

/// Returns up to 8 bytes as one number, by reads that may overlap.
#[inline(always)]
fn read_short(bytes: &[u8]) -> u64
    ensures { result ≡ folding.read_short bytes.now }
{
    let len = bytes.len();
    if len >= 4 {
        read_u32(bytes, 0) | read_u32(bytes, len - 4) << 32
    } else if len > 0 {
        bytes[0] as u64 | (bytes[len / 2] as u64) << 8 | (bytes[len - 1] as u64) << 16
    } else {
        0
    }
}

impl Hasher for SeededHasher {
    ghost use Rattle.irtext_interner.specs.Seeded.{write};

    ghost write = { write };

    ghost finish = { λ h. h.state };

    #[inline(always)]
    fn finish(&self) -> u64 {
        self.state
    }

    #[inline(always)]
    fn write(&mut self, bytes: &[u8]) {
        let len = bytes.len();
        if len <= 8 {
            self.state = folded_multiply(
                self.state ^ read_short(bytes),
                self.multiplier ^ (2 * len as u64),
            );
            return;
        }
        let mut state = self.state.wrapping_add(len as u64);
        let mut at = 0;
        while len - at > 16 {
            state = folded_multiply(
                read_u64(bytes, at) ^ state,
                read_u64(bytes, at + 8) ^ self.multiplier,
            );
            at += 16;
        }
        self.state = folded_multiply(
            read_u64(bytes, len.saturating_sub(16)) ^ state,
            read_u64(bytes, len - 8) ^ self.multiplier,
        );
    }
}
