// The functions of SHA-256 on words (FIPS 180-4, 4.1.2), of four messages at once.
ghost use Rattle.std.specs.Prelude.{◌≡◌, ℕ, ◌/◌, ◌^◌, ◌<◌, bit_and, bit_xor, slice_index};
ghost use Rattle.std.specs.Int.{w32, bit_not, rotate_right};
ghost use Rattle.sha2.specs.Sha256.{add32, big_sigma0, big_sigma1, ch, maj, small_sigma0, small_sigma1};
ghost use Rattle.inc_tree.specs.Lanes.{EachLane};

use std::simd::u32x4;

#[inline(always)]
pub fn add(a: u32x4, b: u32x4) -> u32x4
    ensures sum { EachLane (λ j. slice_index result j ≡ add32 (slice_index a j) (slice_index b j)) }
{
    a + b
}

#[inline(always)]
fn xor(a: u32x4, b: u32x4) -> u32x4
    ensures value { EachLane (λ j. slice_index result j ≡ bit_xor (slice_index a j) (slice_index b j)) }
{
    a ^ b
}

#[inline(always)]
fn and(a: u32x4, b: u32x4) -> u32x4
    ensures value { EachLane (λ j. slice_index result j ≡ bit_and (slice_index a j) (slice_index b j)) }
{
    a & b
}

#[inline(always)]
fn not(a: u32x4) -> u32x4
    ensures value { EachLane (λ j. slice_index result j ≡ bit_not w32 (slice_index a j)) }
{
    !a
}

#[inline(always)]
fn shift_right(x: u32x4, bits: u32) -> u32x4
    requires { bits < 32 }
    ensures value { EachLane (λ j. slice_index result j ≡ slice_index x j / 2 ^ bits) }
{
    x >> u32x4::splat(bits)
}

#[inline(always)]
fn rotate_right(x: u32x4, bits: u32) -> u32x4
    requires some { 0 < bits }
    requires below { bits < 32 }
    ensures value { EachLane (λ j. slice_index result j ≡ rotate_right w32 (slice_index x j) bits) }
    ensures fits { EachLane (λ j. slice_index x j < 2 ^ 32) }
{
    (x >> u32x4::splat(bits)) | (x << u32x4::splat(32 - bits))
}

#[inline(always)]
pub fn ch(x: u32x4, y: u32x4, z: u32x4) -> u32x4
    ensures value { EachLane (λ j. slice_index result j ≡ ch (slice_index x j) (slice_index y j) (slice_index z j)) }
{
    xor(and(x, y), and(not(x), z))
}

// One round's `x ^ y` is the next round's `y ^ z`, so that it is computed once.
#[inline(always)]
pub fn maj(x: u32x4, y: u32x4, z: u32x4) -> u32x4
    ensures value { EachLane (λ j. slice_index result j ≡ maj (slice_index x j) (slice_index y j) (slice_index z j)) }
{
    xor(y, and(xor(x, y), xor(y, z)))
}

// The four functions below nest their rotations, which takes fewer copies of `x` than one rotation beside the other.
#[inline(always)]
pub fn big_sigma0(x: u32x4) -> u32x4
    ensures value { EachLane (λ j. slice_index result j ≡ big_sigma0 (slice_index x j)) }
{
    rotate_right(xor(x, rotate_right(xor(x, rotate_right(x, 9)), 11)), 2)
}

#[inline(always)]
pub fn big_sigma1(x: u32x4) -> u32x4
    ensures value { EachLane (λ j. slice_index result j ≡ big_sigma1 (slice_index x j)) }
{
    rotate_right(xor(x, rotate_right(xor(x, rotate_right(x, 14)), 5)), 6)
}

#[inline(always)]
pub fn small_sigma0(x: u32x4) -> u32x4
    ensures value { EachLane (λ j. slice_index result j ≡ small_sigma0 (slice_index x j)) }
{
    xor(
        rotate_right(xor(x, rotate_right(x, 11)), 7),
        shift_right(x, 3),
    )
}

#[inline(always)]
pub fn small_sigma1(x: u32x4) -> u32x4
    ensures value { EachLane (λ j. slice_index result j ≡ small_sigma1 (slice_index x j)) }
{
    xor(
        rotate_right(xor(x, rotate_right(x, 2)), 17),
        shift_right(x, 10),
    )
}
