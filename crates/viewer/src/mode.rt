// The mode that a C caller names.
ghost use Rattle.std.specs.Prelude.{◌≡◌};
ghost use Rattle.viewer_rules.specs.Modes.{chosen_mode};

use refusals::{Cause, Refusal};

// What a call answers where no mode is named.
pub const NO_MODE: Refusal = Refusal {
    address: 0,
    cause: Cause::BadArgument,
};

// 0 is old mode, 1 is live mode, and no other number is one.
pub fn chosen_mode(mode: u32) -> Option<bool>
    ensures { result ≡ chosen_mode mode }
{
    match mode {
        0 => Some(false),
        1 => Some(true),
        _ => None,
    }
}
