// Four blocks of 4096 bytes hashed at once: each vector has a word of each of them.
ghost use Rattle.std.specs.Prelude.{◌≡◌, ℕ, ◌+◌, ◌<◌, ◌≤◌, [], ◌∷◌, length, slice_index};
ghost use Rattle.sha2.specs.Sha256.{IsWindow, compress, digest_bytes, schedule, sha256, word_at};
ghost use Rattle.inc_tree.specs.Lanes.{EachLane, column, lane, message};

use super::constants::{INITIAL_HASH, PADDING};
use super::rounds::compress;
use crate::{DIGEST_SIZE, Digest32};
use std::simd::u32x4;

/// The bytes that the rounds take in at a time.
const PIECE: usize = 64;

/// The digests of four whole blocks, in their order. It takes no memory.
pub fn digest_four(first: &[u8], second: &[u8], third: &[u8], fourth: &[u8]) -> [Digest32; 4]
    requires first { length first.now ≡ 4096 }
    requires second { length second.now ≡ 4096 }
    requires third { length third.now ≡ 4096 }
    requires fourth { length fourth.now ≡ 4096 }
    ensures value { result ≡ sha256 first.now ∷ sha256 second.now ∷ sha256 third.now ∷ sha256 fourth.now ∷ [] }
{
    let mut state = [
        u32x4::splat(INITIAL_HASH[0]),
        u32x4::splat(INITIAL_HASH[1]),
        u32x4::splat(INITIAL_HASH[2]),
        u32x4::splat(INITIAL_HASH[3]),
        u32x4::splat(INITIAL_HASH[4]),
        u32x4::splat(INITIAL_HASH[5]),
        u32x4::splat(INITIAL_HASH[6]),
        u32x4::splat(INITIAL_HASH[7]),
    ];
    for piece in 0..64 {
        let from = PIECE * piece;
        let to = from + PIECE;
        take_in(
            &mut state,
            &first[from..to],
            &second[from..to],
            &third[from..to],
            &fourth[from..to],
        );
    }
    take_in(&mut state, &PADDING, &PADDING, &PADDING, &PADDING);
    [
        digest_at(&state, 0),
        digest_at(&state, 1),
        digest_at(&state, 2),
        digest_at(&state, 3),
    ]
}

fn take_in(state: &mut [u32x4; 8], first: &[u8], second: &[u8], third: &[u8], fourth: &[u8])
    requires first { length first.now ≡ 64 }
    requires second { length second.now ≡ 64 }
    requires third { length third.now ≡ 64 }
    requires fourth { length fourth.now ≡ 64 }
    ensures value { EachLane (λ j.
        lane j state.new ≡ compress (lane j state.old) (message first.now second.now third.now fourth.now j)) }
{
    let words = words_of(first, second, third, fourth);
    compress(state, words);
}

#[inline(always)]
fn words_of(first: &[u8], second: &[u8], third: &[u8], fourth: &[u8]) -> [u32x4; 16]
    requires first { length first.now ≡ 64 }
    requires second { length second.now ≡ 64 }
    requires third { length third.now ≡ 64 }
    requires fourth { length fourth.now ≡ 64 }
    ensures window { EachLane (λ j.
        IsWindow (column j result) (schedule (message first.now second.now third.now fourth.now j) 48) 16) }
{
    let mut words = [u32x4::splat(0); 16];
    for place in 0..16 {
        let at = 4 * place;
        words[place] = u32x4::from_array([
            word_at(first, at),
            word_at(second, at),
            word_at(third, at),
            word_at(fourth, at),
        ]);
    }
    words
}

#[inline(always)]
fn word_at(piece: &[u8], at: usize) -> u32
    requires { at + 4 ≤ length piece.now }
    ensures value { result ≡ word_at piece.now at }
{
    u32::from_be_bytes([piece[at], piece[at + 1], piece[at + 2], piece[at + 3]])
}

// The digest of one of the four.
fn digest_at(state: &[u32x4; 8], which: usize) -> Digest32
    requires { which < 4 }
    ensures value { result ≡ digest_bytes (lane which state.now) 8 }
{
    let mut digest = [0; DIGEST_SIZE];
    for place in 0..8 {
        let words = state[place].to_array();
        digest[4 * place..4 * place + 4].copy_from_slice(&words[which].to_be_bytes());
    }
    digest
}
