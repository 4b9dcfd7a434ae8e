//! A hasher of numbers.
ghost use Rattle.std.specs.Prelude.{◌≡◌, length};
ghost use Rattle.number_hashing.specs.Numbers as numbers;

use std::hash::Hasher;

/// Takes a number in one step: multiplied to 128 bits, whose halves are joined. Of more than eight bytes that are written at
/// once the first eight count alone, so it is for keys that are numbers. Its seed is fixed.
#[derive(Clone, Copy)]
pub struct NumberHasher {
    state: u64,
}

impl Default for NumberHasher {
    ghost is_default = { λ hasher. hasher ≡ numbers.initial };

    fn default() -> NumberHasher {
        NumberHasher {
            state: 0x243f_6a88_85a3_08d3,
        }
    }
}

const MULTIPLIER: u64 = 0x9e37_79b9_7f4a_7c15;

// A number of 64 bits, multiplied to 128, whose halves are joined.
fn number_hash(number: u64) -> u64
    ensures { result ≡ numbers.number_hash number }
{
    let product = number as u128 * MULTIPLIER as u128;
    (product & 0xFFFF_FFFF_FFFF_FFFF) as u64 ^ (product >> 64) as u64
}

// The number of up to eight bytes, the lowest first.
fn number_of(bytes: &[u8]) -> u64
    ensures { result ≡ numbers.number_of bytes.now }
{
    let mut number: u64 = 0;
    let mut at = bytes.len();
    while at > 0 {
        at -= 1;
        number = number.wrapping_mul(256).wrapping_add(bytes[at] as u64);
    }
    number
}

impl Hasher for NumberHasher {
    ghost write = { numbers.write };

    ghost finish = { λ hasher. hasher.state };

    fn finish(&self) -> u64 {
        self.state
    }

    fn write(&mut self, bytes: &[u8]) {
        self.state = number_hash(self.state ^ number_of(bytes));
    }

    fn write_u32(&mut self, i: u32) {
        self.state = number_hash(self.state ^ i as u64);
    }

    fn write_u64(&mut self, i: u64) {
        self.state = number_hash(self.state ^ i);
    }
}
