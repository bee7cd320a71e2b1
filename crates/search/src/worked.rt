// A search of one round, by the public calls alone.
ghost use Rattle.search.specs.Runs.{FirstRound};

use crate::begin::begin;
use crate::states::Rest;
use order::answer::Answer;
use policy::policy::Policy;
use refusal::Refusal;
use table::rows::Row;

// Begins a search, opens a round by a policy, answers its points and closes it.
// The points get the given answers in their order, and "not feasible" where there are too few.
// What the law over all lists of calls says holds of what it leaves.
pub fn first_round<P: Policy>(
    n: u8,
    finest: u8,
    policy: &P,
    middle: Answer,
    answers: &[Answer],
    table: &mut [Row],
) -> Result<Rest, Refusal>
    ensures { FirstRound n finest result table.new }
{
    let rest = begin(n, finest, table, middle)?;
    let round = rest.open(policy, table)?;
    // A point is called by its number, and there may be fewer answers than points.
    for point in 0..round.points() {
        let answer = answers.get(point).copied().unwrap_or(Answer::NotFeasible);
        round.answer(point, answer, table)?;
    }
    Ok(round.close(table)?)
}
