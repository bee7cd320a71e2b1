// The numbers and the words of refusals.
use refusal::Refusal;
use std::test::Fail;

const ALL: [(Refusal, u8); 17] = [
    (Refusal::Directions, 1),
    (Refusal::FinestLevel, 2),
    (Refusal::NoRow, 3),
    (Refusal::ReadingOutOfRange, 4),
    (Refusal::NotOwnTable, 5),
    (Refusal::NothingToCut, 6),
    (Refusal::NoRoom, 7),
    (Refusal::NoSuchPoint, 8),
    (Refusal::AlreadyAnswered, 9),
    (Refusal::PointWaits, 10),
    (Refusal::ShortCellList, 11),
    (Refusal::ShareAboveLimit, 12),
    (Refusal::CapOutOfRange, 13),
    (Refusal::UnknownMark, 16),
    (Refusal::RecordCutShort, 17),
    (Refusal::MarkOutOfTurn, 18),
    (Refusal::InputTooLong, 19),
];

#[test]
fn numbers(rt: HostRuntime) {
    for (cause, number) in ALL {
        assert_eq!(rt; cause.number(), number);
    }
}

#[test]
fn causes_differ(rt: HostRuntime) {
    for (i, (a, _)) in ALL.iter().enumerate() {
        for (j, (b, _)) in ALL.iter().enumerate() {
            assert_eq!(rt; a == b, i == j);
        }
    }
}

#[test]
fn words(rt: HostRuntime) -> Result<(), Fail> {
    let text = format!(in rt.alloc(); "{}", Refusal::NoRoom)?;
    assert_eq!(rt; text.as_str(), "the table has no room for the points");
    let text = format!(in rt.alloc(); "{}", Refusal::InputTooLong)?;
    assert_eq!(rt; text.as_str(), "the input is too long");
    Ok(())
}
