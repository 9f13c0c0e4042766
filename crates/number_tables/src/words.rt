//! Bits in rows of 64-bit words, numbered from the lowest bit of the first word.

ghost use Rattle.std.specs.Prelude.{◌≡◌, ◌+◌, ◌*◌, ◌/◌, ◌<◌, ◌≤◌, ◌==◌, nat_lt};
ghost use Rattle.std.specs.Prelude.{length, slice_index, IfOk};
ghost use Rattle.number_tables.specs.SetInside.{has_bit, IsZero, SetsBit, ClearsBit, IsLowestBit};
ghost use Rattle.number_tables.specs.SetInside.{PutsWord};
ghost use Rattle.number_tables.specs.SetInside.{IsSummary, ZeroesGroup};

use std::alloc::{AllocError, Global};

/// So many words, no bit of which is set.
pub(crate) fn zeroed(alloc: Global, count: usize) -> Result<Vec<u64>, AllocError>
    ensures count { IfOk result (λ words. length words.items ≡ count) }
    ensures zero { IfOk result (λ words. IsZero words.items) }
{
    vec![in alloc; 0; count]
}

/// Clears all bits.
pub(crate) fn zero(words: &mut [u64])
    ensures { IsZero words.new }
{
    words.fill(0);
}

/// Clears all bits of words, of which the summary says which have some. It goes over the summary's words, and over the 64
/// words of those that aren't 0.
pub(crate) fn zero_summed(words: &mut [u64], summary: &[u64])
    requires length { length words.old ≡ 64 * length summary.now }
    requires summed { IsSummary words.old summary.now }
    ensures { IsZero words.new }
{
    for (group, bits) in summary.iter().enumerate() {
        if *bits != 0 {
            zero_group(words, group);
        }
    }
}

// Clears the bits of the 64 words of a group.
fn zero_group(words: &mut [u64], group: usize)
    requires { 64 * group + 64 ≤ length words.old }
    ensures length { length words.new ≡ length words.old }
    ensures zeroes { ZeroesGroup words.old words.new group }
{
    words[64 * group..64 * group + 64].fill(0);
}

/// Whether a bit is set.
pub(crate) fn has_bit(words: &[u64], number: u32) -> bool
    requires { number < 64 * length words.now }
    ensures { result ≡ has_bit words.now number }
{
    (words[(number / 64) as usize] >> (number % 64)) & 1 == 1
}

/// A word.
pub(crate) fn word_at(words: &[u64], place: u32) -> u64
    requires { place < length words.now }
    ensures { result ≡ slice_index words.now place }
{
    words[place as usize]
}

/// Puts a word in the place of another.
pub(crate) fn put_word(words: &mut [u64], place: u32, word: u64)
    requires { place < length words.old }
    ensures { PutsWord words.old words.new place word }
{
    words[place as usize] = word;
}

/// Sets a bit, and says whether a bit of its word was set before.
pub(crate) fn set_bit(words: &mut [u64], number: u32) -> bool
    requires { number < 64 * length words.old }
    ensures sets { SetsBit words.old words.new number }
    ensures some { result ≡ nat_lt 0 (slice_index words.old (number / 64)) }
{
    let word = (number / 64) as usize;
    let before = words[word];
    words[word] = before | 1 << (number % 64);
    before > 0
}

/// Clears a bit, and says whether no bit of its word is set any more.
pub(crate) fn clear_bit(words: &mut [u64], number: u32) -> bool
    requires { number < 64 * length words.old }
    ensures clears { ClearsBit words.old words.new number }
    ensures empty { result ≡ (slice_index words.new (number / 64) == 0) }
{
    let word = (number / 64) as usize;
    words[word] &= !(1 << (number % 64));
    words[word] == 0
}

/// The lowest bit that is set in a word which isn't 0.
pub(crate) fn lowest_bit(words: &[u64], word: u32) -> u32
    requires few { length words.now ≤ 1024 }
    requires some { 0 < slice_index words.now word }
    ensures { IsLowestBit words.now word result }
{
    word * 64 + words[word as usize].trailing_zeros()
}
