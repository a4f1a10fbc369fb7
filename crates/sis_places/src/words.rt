//! Bits in words of 64.
ghost use Rattle.std.specs.Prelude.{◌≡◌, ℕ, ◌+◌, ◌-◌, ◌*◌, ◌/◌, ◌^◌, ◌<◌, ◌≤◌, length, slice_index_or, if◌then◌else◌};
ghost use Rattle.sis_places.specs.Inside.{IsFirst, has_bit, is_among, is_match, is_neither};

/// The word that has this bit.
pub fn word_at(words: &[u64], i: usize) -> u64
    requires { i < 64 * length words.now }
    ensures { result ≡ slice_index_or words.now (i / 64) 0 }
{
    words[i / 64]
}

/// Neighbouring bits of a word.
fn mask(low: usize, count: usize) -> u64
    requires some { 1 ≤ count }
    requires within { low + count ≤ 64 }
    ensures { result ≡ 2 ^ (low + count) - 2 ^ low }
{
    (u64::MAX >> (64 - count)) << low
}

/// A word with neighbouring bits of it set or cleared.
pub fn put(word: u64, low: usize, count: usize, value: bool) -> u64
    requires some { 1 ≤ count }
    requires within { low + count ≤ 64 }
    ensures { (i : ℕ) → i < 64
        → has_bit result i ≡ (if is_among low count i then value else has_bit word i) }
{
    if value {
        word | mask(low, count)
    } else {
        word & !mask(low, count)
    }
}

/// The bits that neither word has set, or else those that one of them has.
fn matching(current: u64, committed: u64, spare: bool) -> u64
    ensures { (i : ℕ) → i < 64
        → has_bit result i ≡ is_match spare (has_bit current i) (has_bit committed i) }
{
    let held = current | committed;
    if spare { !held } else { held }
}

/// The first place of a range that is spare, or the first that isn't. It looks at whole words.
pub fn first(current: &[u64], committed: &[u64], spare: bool, from: usize, below: usize) -> usize
    requires range { from ≤ below }
    requires current { below ≤ 64 * length current.now }
    requires committed { below ≤ 64 * length committed.now }
    ensures { IsFirst (is_neither current.now committed.now) spare from below result }
{
    let mut at = from;
    while at < below {
        let word = matching(word_at(current, at), word_at(committed, at), spare) >> (at % 64);
        if word != 0 {
            return at + (word.trailing_zeros() as usize).min(below - at);
        }
        at += (64 - at % 64).min(below - at);
    }
    below
}
