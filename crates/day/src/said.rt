// What the player says to a day.
ghost use Rattle.std.specs.Prelude.{◌≡◌, IfOk, string_bytes};
ghost use Rattle.day.specs.Opening.{lines_of};

use crate::opening::opening;
use std::alloc::{AllocError, Global};

// The lines that the player prints for a day.
pub fn lines(heap: Global, day: &[u8]) -> Result<String, AllocError>
    ensures { IfOk result (λ text. string_bytes text ≡ lines_of day.now) }
{
    match opening(day) {
        Ok(_) => Ok(String::new(heap)),
        Err(refusal) => format!(in heap; "{refusal}\n"),
    }
}
