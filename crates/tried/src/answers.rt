// The order of answers, the first of several, records in order, and their keys.
use order::answer::Answer;
use order::arrange::arrange;
use order::least::{first_of, least};
use order::ordered::{Keyed, Ordered};
use order::records::{Candidate, Direction, RankEntry};

#[test]
fn ends_of_the_range(rt: HostRuntime) {
    assert!(rt; Answer::Reading(1_000_000_000).is_allowed());
    assert!(rt; Answer::Reading(-1_000_000_000).is_allowed());
    assert!(rt; !Answer::Reading(1_000_000_001).is_allowed());
    assert!(rt; !Answer::Reading(-1_000_000_001).is_allowed());
    assert!(rt; Answer::NotFeasible.is_allowed());
}

#[test]
fn first_of_answers(rt: HostRuntime) {
    let answers = [
        Answer::NotFeasible,
        Answer::Reading(7),
        Answer::Reading(-3),
        Answer::Reading(-3),
    ];
    assert_eq!(rt; least(&answers), Some(2));
    assert_eq!(rt; least(&answers[..1]), Some(0));
    assert_eq!(rt; least(&answers[..0]), None);
    assert_eq!(rt; first_of(&answers), Some(Answer::Reading(-3)));
}

#[test]
fn ties_go_to_the_lower_number(rt: HostRuntime) {
    let low = Candidate {
        answer: Answer::NotFeasible,
        row: 3,
    };
    let high = Candidate {
        answer: Answer::NotFeasible,
        row: 4,
    };
    assert!(rt; low.precedes(&high));
    assert!(rt; !high.precedes(&low));
    assert!(rt; !low.precedes(&low));
    let near = RankEntry {
        answer: Answer::Reading(5),
        rank: 9,
    };
    let far = RankEntry {
        answer: Answer::Reading(5),
        rank: 2,
    };
    assert!(rt; far.precedes(&near));
    assert!(rt; !near.precedes(&far));
}

#[test]
fn directions_in_order(rt: HostRuntime) {
    let mut directions = [
        Direction::new(0, Answer::Reading(40), Answer::Reading(70)),
        Direction::new(1, Answer::NotFeasible, Answer::NotFeasible),
        Direction::new(2, Answer::NotFeasible, Answer::Reading(30)),
        Direction::new(3, Answer::Reading(30), Answer::Reading(60)),
    ];
    arrange(&mut directions);
    assert_eq!(rt; directions[0].number, 2);
    assert_eq!(rt; directions[1].number, 3);
    assert_eq!(rt; directions[2].number, 0);
    assert_eq!(rt; directions[3].number, 1);
    assert_eq!(rt; directions[2].w, Answer::Reading(40));
}

// Whether a record is before another, by their keys.
fn is_before<T: Keyed>(record: &T, other: &T) -> bool {
    record.key() < other.key()
}

#[test]
fn keys_of_records(rt: HostRuntime) {
    let answer = Answer::Reading(-3);
    let empty: Option<Answer> = None;
    let near = Candidate { answer, row: 3 };
    let far = Candidate { answer, row: 4 };
    let direction = Direction::new(1, answer, Answer::NotFeasible);
    let entry = RankEntry { answer, rank: 9 };
    assert_eq!(rt; answer.key(), answer);
    assert_eq!(rt; Some(answer).key(), (false, Some(answer)));
    assert_eq!(rt; empty.key(), (true, None));
    assert_eq!(rt; near.key(), (answer, 3));
    assert_eq!(rt; direction.key(), (answer, 1));
    assert_eq!(rt; entry.key(), (answer, 9));
    assert!(rt; is_before(&answer, &Answer::NotFeasible));
    assert!(rt; is_before(&Some(Answer::NotFeasible), &empty));
    assert!(rt; is_before(&near, &far));
    assert!(rt; !is_before(&far, &near));
}
