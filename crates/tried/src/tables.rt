// Rows, boxes and fronts of small tables.
use order::answer::Answer;
use order::arrange::arrange;
use order::ordered::Keyed;
use refusal::Refusal;
use std::test::Fail;
use table::rows::{Entry, Row, Span};
use table::shape::Shape;

fn span(first: u32, level: u8) -> Span {
    Span { first, level }
}

// The five boxes of the first division of two directions, by their spans and readings.
fn division() -> [Row; 5] {
    let third = 387_420_489;
    let boxes = [
        (span(third, 1), span(third, 1), 50),
        (span(0, 1), span(third, 1), 40),
        (span(774_840_978, 1), span(third, 1), 70),
        (span(0, 0), span(0, 1), 30),
        (span(0, 0), span(774_840_978, 1), 60),
    ];
    boxes.map(|(first, second, reading)| {
        let mut row = Row::whole(Entry::Answered(Answer::Reading(reading)));
        row.spans[0] = first;
        row.spans[1] = second;
        row
    })
}

#[test]
fn entries_that_wait(rt: HostRuntime) {
    assert!(rt; Entry::Waiting.waits());
    assert!(rt; Entry::Answered(Answer::Reading(1_000_000_001)).waits());
    assert!(rt; !Entry::Answered(Answer::Reading(1_000_000_000)).waits());
    assert!(rt; !Entry::Answered(Answer::NotFeasible).waits());
}

#[test]
fn shapes(rt: HostRuntime) -> Result<(), Fail> {
    let Err(why) = Shape::new(7, 20) else {
        return Err(Fail::new("seven directions"));
    };
    assert_eq!(rt; why, Refusal::Directions);
    let Err(why) = Shape::new(6, 20) else {
        return Err(Fail::new("level 20"));
    };
    assert_eq!(rt; why, Refusal::FinestLevel);
    Ok(())
}

#[test]
fn boxes_of_a_search(rt: HostRuntime) -> Result<(), Fail> {
    let Ok(shape) = Shape::new(2, 19) else {
        return Err(Fail::new("a shape"));
    };
    let rows = division();
    assert!(rt; shape.owns(&rows, 5));
    assert!(rt; !shape.owns(&rows, 6));
    assert_eq!(rt; shape.rank_of(&rows[0]), 2);
    assert_eq!(rt; shape.rank_of(&rows[3]), 1);
    let mut bad = rows;
    bad[4].spans[1].first = 1;
    assert!(rt; !shape.owns(&bad, 5));
    bad = rows;
    bad[4].spans[5].level = 1;
    assert!(rt; !shape.owns(&bad, 5));
    bad = rows;
    bad[4].spans[1].level = 2;
    assert!(rt; !shape.owns(&bad, 5));
    Ok(())
}

#[test]
fn first_boxes_and_front(rt: HostRuntime) -> Result<(), Fail> {
    let Ok(shape) = Shape::new(2, 19) else {
        return Err(Fail::new("a shape"));
    };
    let rows = division();
    let firsts = shape.firsts(&rows);
    assert!(rt; firsts[0].is_none());
    assert!(rt; firsts[1].is_some() && firsts[2].is_some());
    if let Some(first) = firsts[1] {
        assert_eq!(rt; first.row, 3);
    }
    if let Some(first) = firsts[2] {
        assert_eq!(rt; first.row, 1);
    }
    let front = shape.front_of(&rows);
    assert_eq!(rt; front.readings(), Some((30, 70)));
    Ok(())
}

#[test]
fn rows_of_one_answer_in_order(rt: HostRuntime) {
    let mut rows = [Row::whole(Entry::Answered(Answer::Reading(2))); 3];
    rows[1].spans[0].level = 1;
    rows[2].entry = Entry::Answered(Answer::Reading(1));
    let [early, late, first] = rows;
    // the first one changes places with the one that stands where it goes, and the others stay
    arrange(&mut rows);
    assert_eq!(rt; rows[0], first);
    assert_eq!(rt; rows[1], late);
    assert_eq!(rt; rows[2], early);
}

#[test]
fn rows_go_by_their_answers(rt: HostRuntime) {
    let [middle, ..] = division();
    assert_eq!(rt; middle.key(), Answer::Reading(50));
    let waits = Row::whole(Entry::Waiting);
    assert_eq!(rt; waits.key(), Answer::NotFeasible);
}
