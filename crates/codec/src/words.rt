// Bytes as numbers of 64 bits, eight bytes to each, the least byte first.
ghost use Rattle.std.specs.Prelude.{◌≡◌, ◌+◌, ◌*◌, ◌%◌, ◌^◌, ◌≤◌, length, sum, if◌then◌else◌, Some, None};
ghost use Rattle.codec.specs.Bounds.{is_key};
ghost use Rattle.codec.specs.Words.{AreWords, numbers, le, word_from, bytes_le, put_at, bytes_of};

// The eight bytes of a number, the least first.
pub(crate) type Word = [u8; 8];

// The number that eight bytes write.
pub(crate) fn number(word: &Word) -> u64
    ensures { result ≡ le word.now }
{
    u64::from_le_bytes(*word)
}

// A number as 32 bits; none where it is 2^32 or more. With `u32::try_from` in its place `read_entry` takes about a fifth longer.
pub(crate) fn narrow(number: u64) -> Option<u32>
    ensures { result ≡ (if is_key number then Some number else None) }
{
    if number > u64::from(u32::MAX) {
        return None;
    }
    Some(number as u32)
}

// The number that the eight bytes from a byte on write; none where they are cut short.
pub fn word_from(bytes: &[u8], at: usize) -> Option<u64>
    ensures { result ≡ word_from at bytes.now }
{
    let (word, _) = bytes.get(at..)?.split_first_chunk()?;
    Some(number(word))
}

// The sum of numbers, modulo 2^64.
pub(crate) fn sum_words(words: &[Word]) -> u64
    ensures { result ≡ sum (numbers words.now) % 2 ^ 64 }
{
    words
        .iter()
        .fold(0, |total: u64, word| total.wrapping_add(number(word)))
}

fn put_word(out: &mut [u8], k: usize, word: u64)
    requires { 8 * k + 8 ≤ length out.old }
    ensures { out.new ≡ put_at (8 * k) (bytes_le 8 word) out.old }
{
    out[8 * k..8 * k + 8].copy_from_slice(&word.to_le_bytes());
}

// Writes numbers from a place on.
pub(crate) fn put_words(out: &mut [u8], k: usize, words: &[u64])
    requires { 8 * k + 8 * length words.now ≤ length out.old }
    ensures after { out.new ≡ put_at (8 * k) (bytes_of words.now) out.old }
    ensures fit { AreWords words.now }
{
    for (i, word) in words.iter().enumerate() {
        put_word(out, k + i, *word);
    }
}
