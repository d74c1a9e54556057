//! The AND of two rows of words.
ghost use Rattle.std.specs.Prelude.{ℕ, ◌≡◌, ◌+◌, ◌-◌, ◌^◌, ◌<◌, ◌≤◌, length, slice_index, EachIndex, if◌then◌else◌};
ghost use Rattle.lane_sim.specs.Words.{and_words};

use std::simd::prelude::*;

/// The words of one vector.
const CHUNK: usize = 4;

/// Puts into each word of `out` the AND of the words of `a` and `b` at its place. Each is first
/// negated if its flag is set. Chunks of four words are one vector operation.
pub fn and_lanes(out: &mut [u64], a: &[u64], b: &[u64], neg_a: bool, neg_b: bool)
    requires as_many_a { length a.now ≡ length out.old }
    requires as_many_b { length b.now ≡ length out.old }
    ensures { EachIndex out.new (λ k. slice_index out.new k
        ≡ and_words neg_a neg_b (slice_index a.now k) (slice_index b.now k)) }
{
    let mut at = 0;
    'chunks: while out.len() - at >= CHUNK {
        and_chunk(out, a, b, at, neg_a, neg_b);
        at += CHUNK;
    }
    let flip_a = flip(neg_a);
    let flip_b = flip(neg_b);
    'words: while at < out.len() {
        out[at] = (a[at] ^ flip_a) & (b[at] ^ flip_b);
        at += 1;
    }
}

/// Computes the four words from a place on.
#[inline(always)]
fn and_chunk(out: &mut [u64], a: &[u64], b: &[u64], at: usize, neg_a: bool, neg_b: bool)
    requires as_many_a { length a.now ≡ length out.old }
    requires as_many_b { length b.now ≡ length out.old }
    requires room { at + 4 ≤ length out.old }
    ensures each { (j : ℕ) → j < 4 → slice_index out.new (at + j)
        ≡ and_words neg_a neg_b (slice_index a.now (at + j)) (slice_index b.now (at + j)) }
    ensures before { (k : ℕ) → k < at → slice_index out.new k ≡ slice_index out.old k }
{
    let x = u64x4::from_slice(&a[at..]) ^ u64x4::splat(flip(neg_a));
    let y = u64x4::from_slice(&b[at..]) ^ u64x4::splat(flip(neg_b));
    (x & y).copy_to_slice(&mut out[at..]);
}

/// Returns the word by which an XOR negates another one if the flag is set.
#[inline(always)]
fn flip(negated: bool) -> u64
    ensures { result ≡ (if negated then 2 ^ 64 - 1 else 0) }
{
    if negated { u64::MAX } else { 0 }
}
