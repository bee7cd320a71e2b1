// Why a call refuses, and the number by which each refusal is reported.
#![tactic(auto)]

ghost use Rattle.std.specs.Prelude.{◌≡◌, Some, Decides, nat_eq};
ghost use Rattle.refusal.specs.Numbers.{number_of};
ghost use Rattle.refusal.specs.Words.{words_of};
ghost use Rattle.refusal.specs.declared.Refusal.{Refusal as Cause};
ghost use Rattle.std.specs.Cmp.Rules.{comparing};
ghost use Rattle.std.proofs.Common.{rules};
ghost use Rattle.std.specs.Cmp.{partial_equiv_from_equiv};
ghost use Rattle.std.specs.Ordering.{on};

use std::fmt;

// One case for each cause. The numbers 14 and 15 are not in use.
#[derive(Clone, Copy, Eq, Debug)]
pub enum Refusal {
    // begin: the directions are not 1 to 6
    Directions,
    // begin: the finest level is not 1 to 19
    FinestLevel,
    // begin: the table has no row
    NoRow,
    // a number outside the range is offered as a reading
    ReadingOutOfRange,
    // the table is not the search's own
    NotOwnTable,
    // open: no box can be cut
    NothingToCut,
    // open: the boxes and points exceed the rows of the table, or 65,535
    NoRoom,
    // locate, answer: the round has no such point
    NoSuchPoint,
    // answer: the point is answered already
    AlreadyAnswered,
    // close: a point waits
    PointWaits,
    // locate: the cell list is shorter than the directions
    ShortCellList,
    // hull: the share is above 10,000
    ShareAboveLimit,
    // cap: the number is not 1 to 114
    CapOutOfRange,
    // record: an unknown mark
    UnknownMark,
    // record: it ends inside an item, or while something is due
    RecordCutShort,
    // record: a mark out of turn
    MarkOutOfTurn,
    // program: the input is over 16,384 bytes
    InputTooLong,
}

impl Refusal {
    // The number of the cause, which no other cause has. It is no discriminant, since a case may come to carry a value.
    pub fn number(self) -> u8
        ensures value { result ≡ number_of self }
        ensures own { (other : Cause) → number_of other ≡ result → other ≡ self }
    {
        match self {
            Refusal::Directions => 1,
            Refusal::FinestLevel => 2,
            Refusal::NoRow => 3,
            Refusal::ReadingOutOfRange => 4,
            Refusal::NotOwnTable => 5,
            Refusal::NothingToCut => 6,
            Refusal::NoRoom => 7,
            Refusal::NoSuchPoint => 8,
            Refusal::AlreadyAnswered => 9,
            Refusal::PointWaits => 10,
            Refusal::ShortCellList => 11,
            Refusal::ShareAboveLimit => 12,
            Refusal::CapOutOfRange => 13,
            Refusal::UnknownMark => 16,
            Refusal::RecordCutShort => 17,
            Refusal::MarkOutOfTurn => 18,
            Refusal::InputTooLong => 19,
        }
    }

    // The cause in words.
    pub fn words(self) -> &'static str
        ensures { result.now ≡ words_of self }
    {
        match self {
            Refusal::Directions => "the directions are not 1 to 6",
            Refusal::FinestLevel => "the finest level is not 1 to 19",
            Refusal::NoRow => "the table has no row",
            Refusal::ReadingOutOfRange => "a reading is outside the range",
            Refusal::NotOwnTable => "the table is not the search's own",
            Refusal::NothingToCut => "no box can be cut",
            Refusal::NoRoom => "the table has no room for the points",
            Refusal::NoSuchPoint => "the round has no such point",
            Refusal::AlreadyAnswered => "the point is answered already",
            Refusal::PointWaits => "a point waits",
            Refusal::ShortCellList => "the cell list is too short",
            Refusal::ShareAboveLimit => "the share is too great",
            Refusal::CapOutOfRange => "the cap is not 1 to 114",
            Refusal::UnknownMark => "the mark is unknown",
            Refusal::RecordCutShort => "the record is cut short",
            Refusal::MarkOutOfTurn => "the mark is out of turn",
            Refusal::InputTooLong => "the input is too long",
        }
    }
}

// Two causes are the same exactly when their numbers are. A derived `==` would have no clause that says so.
impl PartialEq for Refusal {
    ghost eq = { on number_of nat_eq };

    ghost laws = { partial_equiv_from_equiv (Prim.search (comparing, rules)) };

    fn eq(&self, other: &Refusal) -> bool
        ensures value { result ≡ on number_of nat_eq self.now other.now }
        ensures same { Decides result (self.now ≡ other.now) }
    {
        self.number() == other.number()
    }
}

// A call that hands something back beside its refusal, where only the cause goes on.
impl<S: Drop> From<(Refusal, S)> for Refusal {
    ghost from_gives = { λ refused why. why ≡ refused.0 };

    fn from(refused: (Refusal, S)) -> Refusal {
        refused.0
    }
}

impl fmt::Display for Refusal {
    ghost output = { λ c. Some (words_of c) };

    fn fmt<W: fmt::Write>(&self, f: &mut fmt::Formatter<W>) -> fmt::Result {
        f.write_str(self.words())
    }
}
