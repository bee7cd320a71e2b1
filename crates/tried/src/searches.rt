// Searches by the public calls: what each call gives and refuses.
use hull::hull::Hull;
use order::answer::Answer;
use policy::every::Every;
use refusal::Refusal;
use search::begin::begin;
use search::states::{Rest, Round};
use search::worked::first_round;
use std::test::Fail;
use table::rows::{Entry, Row, Span};

const WAITING: Row = Row {
    spans: [Span { first: 7, level: 9 }; 6],
    entry: Entry::Waiting,
};

// Two directions with middle 50 and the answers 40, 70, 30, 60, after one round by Every.
fn divided(table: &mut [Row]) -> Result<Rest, Refusal> {
    let answers = [
        Answer::Reading(40),
        Answer::Reading(70),
        Answer::Reading(30),
        Answer::Reading(60),
    ];
    first_round(2, 19, &Every {}, Answer::Reading(50), &answers, table)
}

#[test]
fn refusals_of_begin(rt: HostRuntime) -> Result<(), Fail> {
    let mut table = [WAITING; 1];
    let Err(why) = begin(0, 0, &mut table[..0], Answer::Reading(2_000_000_000)) else {
        return Err(Fail::new("no direction"));
    };
    assert_eq!(rt; why.number(), 1);
    let Err(why) = begin(6, 20, &mut table[..0], Answer::Reading(2_000_000_000)) else {
        return Err(Fail::new("level 20"));
    };
    assert_eq!(rt; why.number(), 2);
    let Err(why) = begin(6, 19, &mut table[..0], Answer::Reading(2_000_000_000)) else {
        return Err(Fail::new("no row"));
    };
    assert_eq!(rt; why.number(), 3);
    let Err(why) = begin(6, 19, &mut table, Answer::Reading(2_000_000_000)) else {
        return Err(Fail::new("no reading"));
    };
    assert_eq!(rt; why.number(), 4);
    assert_eq!(rt; table[0].spans[5].level, 9);
    Ok(())
}

#[test]
fn first_division(rt: HostRuntime) -> Result<(), Fail> {
    let mut table = [WAITING; 6];
    let Ok(rest) = divided(&mut table) else {
        return Err(Fail::new("a round"));
    };
    assert_eq!(rt; rest.boxes(), 5);
    assert_eq!(rt; rest.rounds(), 1);
    let shape = rest.shape();
    assert_eq!(rt; shape.rank_of(&table[3]), 1);
    assert_eq!(rt; shape.rank_of(&table[4]), 1);
    assert_eq!(rt; shape.rank_of(&table[0]), 2);
    assert_eq!(rt; shape.rank_of(&table[1]), 2);
    assert_eq!(rt; shape.rank_of(&table[2]), 2);
    assert_eq!(rt; table[1].spans[1].first, 387_420_489);
    assert_eq!(rt; table[5].spans[0].level, 9);
    let Ok(best) = rest.best(&table) else {
        return Err(Fail::new("best"));
    };
    assert_eq!(rt; best, Some((3, 30)));
    Ok(())
}

#[test]
fn third_point_of_the_second_round(rt: HostRuntime) -> Result<(), Fail> {
    let mut table = [WAITING; 20];
    let Ok(rest) = divided(&mut table) else {
        return Err(Fail::new("a round"));
    };
    let Ok(round) = rest.open(&Every {}, &mut table) else {
        return Err(Fail::new("a second round"));
    };
    assert_eq!(rt; round.points(), 6);
    let mut cells = [5; 3];
    assert!(rt; round.locate(2, &table, &mut cells).is_ok());
    assert_eq!(rt; cells[0], 64_570_081);
    assert_eq!(rt; cells[1], 581_130_733);
    assert_eq!(rt; cells[2], 5);
    let Err(why) = round.locate(6, &table, &mut cells) else {
        return Err(Fail::new("point 6"));
    };
    assert_eq!(rt; why, Refusal::NoSuchPoint);
    let Err(why) = round.locate(0, &table, &mut cells[..1]) else {
        return Err(Fail::new("a short list"));
    };
    assert_eq!(rt; why, Refusal::ShortCellList);
    Ok(())
}

#[test]
fn room_for_points(rt: HostRuntime) -> Result<(), Fail> {
    let mut table = [WAITING; 5];
    let Ok(rest) = begin(2, 19, &mut table, Answer::Reading(1)) else {
        return Err(Fail::new("a search"));
    };
    let Err(refused) = rest.open(&Every {}, &mut table[..4]) else {
        return Err(Fail::new("four rows"));
    };
    assert_eq!(rt; refused.0, Refusal::NoRoom);
    let Ok(round) = refused.1.open(&Every {}, &mut table) else {
        return Err(Fail::new("five rows"));
    };
    assert_eq!(rt; round.points(), 4);
    Ok(())
}

#[test]
fn answers_to_points(rt: HostRuntime) -> Result<(), Fail> {
    let mut table = [WAITING; 3];
    let Ok(rest) = begin(1, 1, &mut table, Answer::Reading(1)) else {
        return Err(Fail::new("a search"));
    };
    let Ok(round) = rest.open(&Every {}, &mut table) else {
        return Err(Fail::new("a round"));
    };
    assert!(rt; round.answer(0, Answer::NotFeasible, &mut table).is_ok());
    let Err(why) = round.answer(0, Answer::Reading(1), &mut table) else {
        return Err(Fail::new("a second answer"));
    };
    assert_eq!(rt; why, Refusal::AlreadyAnswered);
    let Ok(waiting) = round.waiting(&table) else {
        return Err(Fail::new("waiting"));
    };
    assert_eq!(rt; waiting, Some(1));
    let Err(refused) = round.close(&mut table) else {
        return Err(Fail::new("an open point"));
    };
    assert_eq!(rt; refused.0, Refusal::PointWaits);
    let round = refused.1;
    assert!(rt; round.answer(1, Answer::Reading(-9), &mut table).is_ok());
    let Ok(rest) = round.close(&mut table) else {
        return Err(Fail::new("closing"));
    };
    let Err(refused) = rest.open(&Every {}, &mut table) else {
        return Err(Fail::new("a finished search"));
    };
    assert_eq!(rt; refused.0, Refusal::NothingToCut);
    Ok(())
}

#[test]
fn tables_of_others(rt: HostRuntime) -> Result<(), Fail> {
    let mut table = [WAITING; 6];
    let Ok(rest) = divided(&mut table) else {
        return Err(Fail::new("a round"));
    };
    table[4].spans[1].level = 3;
    let Err(why) = rest.best(&table) else {
        return Err(Fail::new("a damaged row"));
    };
    assert_eq!(rt; why, Refusal::NotOwnTable);
    let Err(why) = rest.best(&table[..4]) else {
        return Err(Fail::new("a short table"));
    };
    assert_eq!(rt; why, Refusal::NotOwnTable);
    Ok(())
}

#[test]
fn rounds_by_hull(rt: HostRuntime) -> Result<(), Fail> {
    let mut table = [WAITING; 9];
    let Ok(hull) = Hull::new(0) else {
        return Err(Fail::new("a hull"));
    };
    let Ok(rest) = first_round(
        1,
        19,
        &hull,
        Answer::Reading(22),
        &[Answer::Reading(10)],
        &mut table,
    ) else {
        return Err(Fail::new("a round"));
    };
    assert_eq!(rt; rest.boxes(), 3);
    let Ok(round) = rest.open(&hull, &mut table) else {
        return Err(Fail::new("a second round"));
    };
    assert_eq!(rt; round.chosen().count(), 1);
    assert!(rt; round.chosen().contains(1));
    Ok(())
}
