// The opening of a day, which fixes the horizon.
ghost use Rattle.std.specs.Prelude.{◌≡◌};
ghost use Rattle.day.specs.Opening.{opened};

use rows::horizon::horizon_from;
use rows::refusal::Refusal;

// The horizon, in the first four bytes of a day, low byte first.
pub fn opening(day: &[u8]) -> Result<u64, Refusal>
    ensures { result ≡ opened day.now }
{
    let Some(first) = day.first_chunk::<4>() else {
        return Err(Refusal::NoSuchOrder(0));
    };
    horizon_from(u32::from_le_bytes(*first) as u64)
}
