// Making a hull of its share, and reading the share.
ghost use Rattle.std.specs.Prelude.{◌≡◌, ◌≤◌, Err};
ghost use Rattle.refusal.specs.Checks.{Check, Gives};
ghost use Rattle.refusal.specs.declared.Refusal.TheVariants.{ShareAboveLimit};

use super::{Hull, WHOLE};
use refusal::Refusal;

impl Hull {
    // A hull of a share up to 10,000 ten thousandths.
    pub fn new(share: u16) -> Result<Hull, Refusal>
        ensures { Check (share ≤ 10000) (result ≡ Err ShareAboveLimit) (Gives result (λ h. h.share ≡ share)) }
    {
        if share <= WHOLE {
            Ok(Hull { share })
        } else {
            Err(Refusal::ShareAboveLimit)
        }
    }

    // The share in ten thousandths.
    pub fn share(&self) -> u16
        ensures { result ≡ self.now.share }
    {
        self.share
    }
}
