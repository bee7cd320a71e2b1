// Which policy a round is opened by, as numbers, and the policies of both sides.
use hull::hull::Hull;
use policy::cap::Cap;
use policy::every::Every;
use policy::policy::Policy;
use reference::policies::Policy as Second;
use reference::stop::Cause;
use refusal::Refusal;
use search::states::{Rest, Round};
use std::fmt;
use table::rows::Row;

// Hull where there is a share, else Every; a cap of it where there is one, and a cap of that.
#[derive(Clone, Copy, PartialEq, Eq)]
pub struct Plan {
    pub share: Option<u16>,
    pub caps: [Option<u8>; 2],
}

impl fmt::Display for Plan {
    fn fmt<W: fmt::Write>(&self, f: &mut fmt::Formatter<W>) -> fmt::Result {
        match self.share {
            Some(share) => write!(f, "hull of {share}")?,
            None => write!(f, "every")?,
        }
        for most in self.caps.into_iter().flatten() {
            write!(f, " under a cap of {most}")?;
        }
        Ok(())
    }
}

// Opens a round by a policy under a cap or none.
fn open_under<P: Policy + Drop>(
    rest: Rest,
    cap: Option<u8>,
    policy: P,
    rows: &mut [Row],
) -> Result<Round, (Refusal, Rest)> {
    let Some(most) = cap else {
        return rest.open(&policy, rows);
    };
    match Cap::new(most, policy) {
        Ok(capped) => rest.open(&capped, rows),
        Err((why, _)) => Err((why, rest)),
    }
}

// Opens a round by a policy under two caps, one, or none.
// A cap of a cap is a type of its own, so no loop goes over the caps.
fn open_by<P: Policy + Drop>(
    rest: Rest,
    plan: Plan,
    policy: P,
    rows: &mut [Row],
) -> Result<Round, (Refusal, Rest)> {
    let [inner, outer] = plan.caps;
    if outer.is_none() {
        return open_under(rest, inner, policy, rows);
    }
    match Cap::new(inner.unwrap_or(114), policy) {
        Ok(capped) => open_under(rest, outer, capped, rows),
        Err((why, _)) => Err((why, rest)),
    }
}

impl Plan {
    // Every without a cap.
    pub const EVERY: Plan = Plan {
        share: None,
        caps: [None, None],
    };

    // Hull of a share, without a cap.
    pub fn hull(share: u16) -> Plan {
        Plan {
            share: Some(share),
            caps: [None, None],
        }
    }

    // The same policy under one cap.
    pub fn under(self, most: u8) -> Plan {
        Plan {
            share: self.share,
            caps: [Some(most), None],
        }
    }

    // Makes its policies by the package.
    pub fn make(self) -> Result<(), Refusal> {
        if let Some(share) = self.share {
            let _ = Hull::new(share)?;
        }
        for most in self.caps.into_iter().flatten() {
            let _ = Cap::new(most, Every {})?;
        }
        Ok(())
    }

    // Opens a round by the package.
    pub fn open(self, rest: Rest, rows: &mut [Row]) -> Result<Round, (Refusal, Rest)> {
        let Some(share) = self.share else {
            return open_by(rest, self, Every {}, rows);
        };
        match Hull::new(share) {
            Ok(policy) => open_by(rest, self, policy, rows),
            Err(why) => Err((why, rest)),
        }
    }

    // The policy of the reference.
    pub fn second(self) -> Result<Second, Cause> {
        let mut policy = match self.share {
            Some(share) => Second::hull(share)?,
            None => Second::every(),
        };
        for most in self.caps.into_iter().flatten() {
            policy = policy.capped(most)?;
        }
        Ok(policy)
    }
}
