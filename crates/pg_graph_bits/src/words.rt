//! Numbers as the bits of 64-bit words: the number n is bit n % 64 of word n / 64.
ghost use Rattle.std.specs.Prelude.{◌≡◌, ◌<◌, ◌≤◌, ◌*◌, ◌+◌, ◌↔◌, ℕ, false, length, slice_index, bit_or, IsTrue, MatchOption};
ghost use Rattle.pg_graph_bits.specs.Numbers.{IsNext};
ghost use Rattle.pg_graph_bits.specs.Words.{has_bit, bits_below, both_have_bit, AddsBit};

/// Whether the bit of a number is set. After the last word none is.
pub(crate) fn has_bit(words: &[u64], number: usize) -> bool
    ensures { result ≡ has_bit words.now number }
{
    match words.get(number / 64) {
        Some(word) => (*word >> (number % 64)) & 1 == 1,
        None => false,
    }
}

/// How many bits are set.
pub(crate) fn count_bits(words: &[u64]) -> usize
    requires { bits_below words.now (64 * length words.now) ≤ usize.MAX }
    ensures { result ≡ bits_below words.now (64 * length words.now) }
{
    let mut count: usize = 0;
    for k in 0..words.len() {
        count += words[k].count_ones() as usize;
    }
    count
}

/// Adds the bits of the other words, of which there are as many. Returns whether a word changed.
pub(crate) fn unite_words(words: &mut [u64], others: &[u64]) -> bool
    requires { length words.old ≡ length others.now }
    ensures united { (k : ℕ) → slice_index words.new k ≡ bit_or (slice_index words.old k) (slice_index others.now k) }
    ensures grown { IsTrue result ↔ AddsBit words.old others.now }
{
    let mut grown = false;
    for k in 0..words.len() {
        let word = words[k] | others[k];
        if word != words[k] {
            grown = true;
        }
        words[k] = word;
    }
    grown
}

/// The least number whose bit is set in both.
pub(crate) fn first_in_both(words: &[u64], others: &[u64]) -> Option<usize>
    requires { 64 * length words.now ≤ usize.MAX + 1 }
    ensures { MatchOption result ((n : ℕ) → both_have_bit words.now others.now n ≡ false) (λ k. IsNext (both_have_bit words.now others.now) 0 k) }
{
    for k in 0..words.len().min(others.len()) {
        let both = words[k] & others[k];
        if both != 0 {
            return Some(k * 64 + both.trailing_zeros() as usize);
        }
    }
    None
}

/// The least number from this one on whose bit is set.
pub(crate) fn first_from(words: &[u64], from: usize) -> Option<usize>
    requires { 64 * length words.now ≤ usize.MAX + 1 }
    ensures { MatchOption result ((n : ℕ) → from ≤ n → has_bit words.now n ≡ false) (λ k. IsNext (has_bit words.now) from k) }
{
    let first = from / 64;
    if first >= words.len() {
        return None;
    }
    let word = words[first] >> (from % 64);
    if word != 0 {
        return Some(from + word.trailing_zeros() as usize);
    }
    for k in first + 1..words.len() {
        if words[k] != 0 {
            return Some(k * 64 + words[k].trailing_zeros() as usize);
        }
    }
    None
}
