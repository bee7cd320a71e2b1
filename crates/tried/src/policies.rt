// Sets of ranks, fronts, and what the policies choose.
use hull::hull::Hull;
use order::answer::Answer;
use policy::cap::Cap;
use policy::every::Every;
use policy::front::Front;
use policy::policy::Policy;
use ranks::rank_set::{RANKS, RankSet};
use refusal::Refusal;
use std::test::Fail;

// The set of some ranks.
fn set(ranks: &[usize]) -> RankSet {
    let mut all = RankSet::empty();
    for rank in ranks {
        all.insert(*rank);
    }
    all
}

// The front of one direction whose first ranks have these readings.
fn line(readings: &[i32], least: i32, greatest: i32) -> Option<Front> {
    let mut entries = [None; RANKS];
    for (rank, reading) in readings.iter().enumerate() {
        if rank < RANKS {
            entries[rank] = Some(Answer::Reading(*reading));
        }
    }
    Front::new(1, entries, Some((least, greatest)))
}

#[test]
fn ranks_of_both_words(rt: HostRuntime) {
    let all = set(&[113, 64, 3, 63, 114, 3]);
    assert_eq!(rt; all.count(), 4);
    assert!(rt; all.contains(63) && all.contains(64) && all.contains(113));
    assert!(rt; !all.contains(114) && !all.contains(4));
    assert_eq!(rt; all.first(), Some(3));
    assert!(rt; all.lowest(2) == set(&[3, 63]));
    assert!(rt; all.lowest(9) == all);
    assert!(rt; all.lowest(0) == RankSet::empty());
    let mut rest = all;
    assert_eq!(rt; rest.pop_first(), Some(3));
    assert_eq!(rt; rest.pop_first(), Some(63));
    assert_eq!(rt; rest.pop_first(), Some(64));
    assert_eq!(rt; rest.pop_first(), Some(113));
    assert_eq!(rt; rest.pop_first(), None);
}

#[test]
fn ranks_rise(rt: HostRuntime) {
    let mut seen = RankSet::empty();
    let mut last = 0;
    for rank in set(&[100, 7, 64]).members() {
        assert!(rt; last < rank);
        last = rank;
        seen.insert(rank);
    }
    assert!(rt; seen == set(&[7, 64, 100]));
}

#[test]
fn what_is_a_front(rt: HostRuntime) {
    assert!(rt; line(&[5, 3], 3, 5).is_some());
    assert!(rt; line(&[5, 3], 4, 5).is_none());
    assert!(rt; line(&[5, 3], 3, 4).is_none());
    assert!(rt; line(&[5, 3], 3, 1_000_000_001).is_none());
    let mut entries = [None; RANKS];
    entries[19] = Some(Answer::NotFeasible);
    assert!(rt; Front::new(1, entries, None).is_none());
    assert!(rt; Front::new(2, entries, None).is_some());
    assert!(rt; Front::new(0, [None; RANKS], None).is_none());
    assert!(rt; Front::new(7, [None; RANKS], None).is_none());
    entries[0] = Some(Answer::Reading(1));
    assert!(rt; Front::new(2, entries, None).is_none());
}

#[test]
fn first_of_a_level(rt: HostRuntime) -> Result<(), Fail> {
    let mut entries = [None; RANKS];
    entries[2] = Some(Answer::NotFeasible);
    entries[4] = Some(Answer::Reading(7));
    entries[5] = Some(Answer::Reading(7));
    let Some(front) = Front::new(2, entries, Some((7, 7))) else {
        return Err(Fail::new("a front"));
    };
    assert!(rt; front.first_of_level(0).is_none());
    let Some(first) = front.first_of_level(1) else {
        return Err(Fail::new("level 1"));
    };
    assert_eq!(rt; first.rank, 2);
    let Some(second) = front.first_of_level(2) else {
        return Err(Fail::new("level 2"));
    };
    assert_eq!(rt; second.rank, 4);
    assert!(rt; front.first_of_level(19).is_none());
    Ok(())
}

#[test]
fn every_and_caps(rt: HostRuntime) -> Result<(), Fail> {
    let Some(front) = line(&[22, 10, 6], 6, 22) else {
        return Err(Fail::new("a front"));
    };
    assert!(rt; Every {}.choose(&front) == set(&[0, 1, 2]));
    let Ok(two) = Cap::new(2, Every {}) else {
        return Err(Fail::new("a cap of two"));
    };
    assert!(rt; two.choose(&front) == set(&[0, 1]));
    let Ok(nested) = Cap::new(1, two) else {
        return Err(Fail::new("a cap of one"));
    };
    assert!(rt; nested.choose(&front) == set(&[0]));
    Ok(())
}

#[test]
fn caps_out_of_range(rt: HostRuntime) -> Result<(), Fail> {
    let Err((why, back)) = Cap::new(0, Every {}) else {
        return Err(Fail::new("a cap of none"));
    };
    assert_eq!(rt; why, Refusal::CapOutOfRange);
    let Err((why, _)) = Cap::new(115, back) else {
        return Err(Fail::new("a cap of 115"));
    };
    assert_eq!(rt; why.number(), 13);
    assert!(rt; Cap::new(114, Every {}).is_ok());
    Ok(())
}

// What a hull of a share chooses.
fn hull_of(share: u16, readings: &[i32], least: i32, greatest: i32) -> Option<RankSet> {
    let front = line(readings, least, greatest)?;
    match Hull::new(share) {
        Ok(hull) => Some(hull.choose(&front)),
        Err(_) => None,
    }
}

#[test]
fn hulls_without_a_margin(rt: HostRuntime) {
    assert!(rt; hull_of(0, &[22, 10, 6], 6, 22) == Some(set(&[0, 1, 2])));
    assert!(rt; hull_of(0, &[22, 10, 5], 5, 22) == Some(set(&[0, 2])));
}

#[test]
fn hulls_with_a_margin(rt: HostRuntime) {
    assert!(rt; hull_of(1_000, &[12, 10], 10, 12) == Some(set(&[0, 1])));
    assert!(rt; hull_of(1_000, &[11, 10], 10, 11) == Some(set(&[0])));
    assert!(rt; hull_of(1_000, &[10, 10], 10, 10) == Some(set(&[0])));
}

#[test]
fn shares_out_of_range(rt: HostRuntime) -> Result<(), Fail> {
    assert!(rt; Hull::new(10_000).is_ok());
    let Err(why) = Hull::new(10_001) else {
        return Err(Fail::new("a share of 10,001"));
    };
    assert_eq!(rt; why, Refusal::ShareAboveLimit);
    Ok(())
}
