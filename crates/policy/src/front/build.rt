// Making a front, after a check that it is one.
ghost use Rattle.std.specs.Prelude.{◌≡◌, Decides, MatchOption};
ghost use Rattle.policy.specs.Fronts.{AllFit, EmptyFrom, IsFront, ends_fit, entry_fits};

use super::Front;
use order::answer::Answer;
use ranks::rank_set::RANKS;

// Whether the least and the greatest reading are readings, in this order.
fn ends_fit(readings: Option<(i32, i32)>) -> bool
    ensures { result ≡ ends_fit readings }
{
    match readings {
        Some((least, greatest)) => Answer::Reading(least).is_allowed()
            && Answer::Reading(greatest).is_allowed()
            && least <= greatest,
        None => true,
    }
}

// Whether an entry's reading lies between the least and the greatest.
fn entry_fits(readings: Option<(i32, i32)>, entry: Option<Answer>) -> bool
    ensures { result ≡ entry_fits readings entry }
{
    match (readings, entry) {
        (Some((least, greatest)), Some(Answer::Reading(x))) => least <= x && x <= greatest,
        (None, Some(Answer::Reading(_))) => false,
        _ => true,
    }
}

// Whether every entry fits.
fn all_fit(readings: Option<(i32, i32)>, entries: &[Option<Answer>; RANKS]) -> bool
    ensures { Decides result (AllFit readings entries.now) }
{
    entries.iter().all(|entry| entry_fits(readings, *entry))
}

// Whether the entries from a rank on are empty.
fn empty_from(low: usize, entries: &[Option<Answer>; RANKS]) -> bool
    ensures { Decides result (EmptyFrom low entries.now) }
{
    entries.iter().skip(low).all(|entry| entry.is_none())
}

impl Front {
    // The front of these entries and readings, or none where they are no front.
    pub fn new(
        directions: u8,
        entries: [Option<Answer>; RANKS],
        readings: Option<(i32, i32)>,
    ) -> Option<Front>
        ensures { MatchOption result (IsFront directions entries readings → ⊥) (λ f. (f.directions ≡ directions) × (f.entries ≡ entries) × (f.readings ≡ readings)) }
    {
        if (1..=6).contains(&directions)
            && empty_from(19 * usize::from(directions), &entries)
            && ends_fit(readings)
            && all_fit(readings, &entries)
        {
            Some(Front {
                directions,
                entries,
                readings,
            })
        } else {
            None
        }
    }
}
