// The horizon: how many versions behind the newest are kept.
ghost use Rattle.std.specs.Prelude.{◌≡◌};
ghost use Rattle.rows.specs.Refusals.{horizon_from};

use crate::refusal::Refusal;

// The largest horizon.
pub const MOST_HORIZON: u64 = 4096;

// A number as a horizon, unless it is above the largest.
pub fn horizon_from(number: u64) -> Result<u64, Refusal>
    ensures { result ≡ horizon_from number }
{
    if number > MOST_HORIZON {
        return Err(Refusal::HorizonTooLarge(number));
    }
    Ok(number)
}
