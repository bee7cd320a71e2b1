// The last rank and the last level, sets that differ in one word, a tie between sizes, and the cap of a record.
use hull::hull::Hull;
use order::answer::Answer;
use policy::every::Every;
use policy::front::Front;
use policy::policy::Policy;
use ranks::rank_set::{RANKS, RankSet};
use report::reply::reply;
use std::test::Fail;

// The set of one rank.
fn only(rank: usize) -> RankSet {
    let mut one = RankSet::empty();
    one.insert(rank);
    one
}

#[test]
fn sets_that_differ_in_one_word(rt: HostRuntime) {
    assert!(rt; only(64) != only(65));
    assert!(rt; only(113) != RankSet::empty());
    assert!(rt; only(3) != only(4));
}

// Rank 113 of six directions has level 18, the last at which a box can be cut.
#[test]
fn the_last_rank(rt: HostRuntime) -> Result<(), Fail> {
    let mut entries = [None; RANKS];
    entries[113] = Some(Answer::NotFeasible);
    let Some(front) = Front::new(6, entries, None) else {
        return Err(Fail::new("a front"));
    };
    assert!(rt; Every {}.choose(&front) == only(113));
    let Some(first) = front.first_of_level(18) else {
        return Err(Fail::new("level 18"));
    };
    assert_eq!(rt; first.rank, 113);
    Ok(())
}

// A smaller size is chosen only where the larger one's value is above its own.
#[test]
fn sizes_of_one_value(rt: HostRuntime) -> Result<(), Fail> {
    let mut entries = [None; RANKS];
    entries[0] = Some(Answer::Reading(10));
    entries[1] = Some(Answer::Reading(10));
    let Some(front) = Front::new(1, entries, Some((10, 10))) else {
        return Err(Fail::new("a front"));
    };
    let Ok(hull) = Hull::new(0) else {
        return Err(Fail::new("a hull"));
    };
    assert!(rt; hull.choose(&front) == only(0));
    Ok(())
}

// In the third round ranks 1 and 2 are filled; a cap of 1 leaves rank 1, and so two points.
#[test]
fn a_cap_leaves_out_a_rank(rt: HostRuntime) -> Result<(), Fail> {
    let told = reply(rt.alloc(), b"BG\x01\x13NFRENFNFRENFNFCP\x01RENFNF")?;
    assert_eq!(rt;
        told.as_str(),
        "directions 1 finest 19 rounds 3 boxes 7\n0 - 516560652/2\n1 - 129140163/2\n2 - 774840978/1\n3 - 387420489/2\n4 - 645700815/2\n5 - 0/2\n6 - 258280326/2\nbest -\n"
    );
    Ok(())
}
