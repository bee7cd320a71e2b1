// Opening the rounds that records name.
ghost use Rattle.search.specs.Calls.{OwnRest};
ghost use Rattle.search.specs.Tales.{meaning_of, under};
ghost use Rattle.search.specs.Turns.{OpensNamed, OpensOr, cap_number};

use crate::states::{Rest, Round};
use hull::hull::Hull;
use policy::cap::{Cap, Most};
use policy::every::Every;
use policy::policy::Policy;
use record::item::Named;
use refusal::Refusal;
use table::rows::Row;

// Opens a round by a policy, where the table is known to be the search's own; the search goes with a refusal.
fn open_by<P: Policy>(rest: Rest, policy: &P, table: &mut [Row]) -> Result<Round, Refusal>
    requires { OwnRest rest table.old }
    ensures { OpensOr (P.Policy.chosen policy.now) rest table.old result table.new }
{
    Ok(rest.open_in(policy, table)?)
}

// The same under a cap or none: a cap of the policy is a policy of another type, so both ways are written out.
fn open_under<P: Policy + Drop>(
    rest: Rest,
    cap: Option<Most>,
    policy: P,
    table: &mut [Row],
) -> Result<Round, Refusal>
    requires { OwnRest rest table.old }
    ensures { OpensOr (under (cap_number cap) (P.Policy.chosen policy)) rest table.old result table.new }
{
    match cap {
        Some(most) => open_by(rest, &Cap::of(most, policy), table),
        None => open_by(rest, &policy, table),
    }
}

// The same by the policy that a record names.
pub(crate) fn open_named(
    rest: Rest,
    cap: Option<Most>,
    by: Named,
    table: &mut [Row],
) -> Result<Round, Refusal>
    requires { OwnRest rest table.old }
    ensures { OpensNamed (cap_number cap) by rest table.old result table.new }
{
    match by {
        Named::Every => open_under(rest, cap, Every {}, table),
        Named::Hull(share) => open_under(rest, cap, Hull::new(share)?, table),
    }
}
