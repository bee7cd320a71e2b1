// The items of a run record.
use order::answer::Answer;

// A policy as a record names it: a hull by its share, any number that two bytes hold.
// As an `Option` of the share it would not say which policy has none.
#[derive(Clone, Copy)]
pub enum Named {
    Every,
    Hull(u16),
}

// What a record tells, one thing after another.
#[derive(Clone, Copy)]
pub enum Item {
    // a search begins, with its directions and its finest level
    Begin(u8, u8),
    // the answer for the middle cell or for the next point
    Answer(Answer),
    // a cap for the round that follows
    Cap(u8),
    // a round by a policy
    Round(Named),
}

// What the two bytes say with which an item begins.
#[derive(Clone, Copy)]
pub enum Mark {
    Begin,
    Value,
    NotFeasible,
    Cap,
    Every,
    Hull,
}

// Why no item stands at the front of some bytes.
#[derive(Clone, Copy)]
pub enum Unread {
    // less than two bytes are left
    MarkCut,
    // the two bytes are no mark
    Unknown,
    // the bytes end inside the item of this mark
    BodyCut(Mark),
}
