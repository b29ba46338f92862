// Numbers with their sum behind them.
ghost use Rattle.std.specs.Prelude.{◌≡◌, ◌+◌, ◌*◌, ◌%◌, ◌^◌, ◌≤◌, [], ◌∷◌, length, take, sum};
ghost use Rattle.std.specs.Option.{option_map};
ghost use Rattle.codec.specs.Words.{put_at, numbers, words_of, bytes_of};
ghost use Rattle.codec.specs.Seals.{unsealed};

use crate::words::{Word, number, put_words, sum_words};

// The numbers before the sum, where the bytes are whole numbers and the last is the sum of the others.
pub(crate) fn unseal(bytes: &[u8]) -> Option<&[Word]>
    ensures { option_map (λ front. numbers front.now) result ≡ unsealed bytes.now }
{
    let (words, rest) = bytes.as_chunks();
    if !rest.is_empty() {
        return None;
    }
    let (sum, front) = words.split_last()?;
    (number(sum) == sum_words(front)).then_some(front)
}

// Writes the sum of the first n numbers behind them.
pub(crate) fn put_seal(out: &mut [u8], n: usize)
    requires { 8 * n + 8 ≤ length out.old }
    ensures { out.new ≡ put_at (8 * n) (bytes_of ((sum (take n (words_of out.old)) % 2 ^ 64) ∷ [])) out.old }
{
    let total = sum_words(&out.as_chunks().0[..n]);
    put_words(out, n, &[total]);
}
