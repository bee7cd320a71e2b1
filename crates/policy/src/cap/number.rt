// The number of a cap: made of a number from 1 to 114, and read again.
ghost use Rattle.std.specs.Prelude.{◌≡◌, ◌≤◌, Err};
ghost use Rattle.refusal.specs.Checks.{Check, Gives};
ghost use Rattle.refusal.specs.declared.Refusal.TheVariants.{CapOutOfRange};

use super::Most;
use refusal::Refusal;

impl TryFrom<u8> for Most {
    type Error = Refusal;

    ghost try_from_gives = { λ number made. Check ((1 ≤ number) × (number ≤ 114)) (made ≡ Err CapOutOfRange) (Gives made (λ m. m.number ≡ number)) };

    fn try_from(number: u8) -> Result<Most, Refusal> {
        if (1..=114).contains(&number) {
            Ok(Most { number })
        } else {
            Err(Refusal::CapOutOfRange)
        }
    }
}

impl From<Most> for u8 {
    ghost from_gives = { λ most number. number ≡ most.number };

    fn from(most: Most) -> u8 {
        most.number
    }
}
