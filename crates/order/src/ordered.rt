// Records whose order is total, by a key, and those of them that can give a key to a program.
ghost use Rattle.std.specs.Prelude.{◌≡◌, Bool, true, false};
ghost use Rattle.std.specs.Ordering.{is_lt};
ghost use Rattle.std.specs.declared.cmp.Ordering.TheVariants.{Equal};

pub trait Ordered {
    // what a record goes by
    ghost Key: { Type 0 };

    ghost key: { Self → Key };

    ghost before: { Key → Key → Bool };

    // Whether it is before another.
    fn precedes(&self, other: &Self) -> bool
        ensures { result ≡ before (key self.now) (key other.now) };

    // no record is before itself
    ghost irreflexive: { (a : Self) → before (key a) (key a) ≡ false };

    // before carries over from a to b to c
    ghost transitive: { (a b c : Self) → before (key a) (key b) ≡ true → before (key b) (key c) ≡ true → before (key a) (key c) ≡ true };

    // two records with neither before have the same key
    ghost total: { (a b : Self) → before (key a) (key b) ≡ false → before (key b) (key a) ≡ false → key a ≡ key b };
}

// Records that can give what they go by as a value, whose own order is theirs.
pub trait Keyed: Ordered {
    // its order is total, by the laws of every `Ord`
    type Key: Ord + Drop;

    ghost key: { Self → Self.Key };

    fn key(&self) -> Self::Key
        ensures { result ≡ key self.now };

    // a record is before another where its key is less
    ghost by_key: { (a b : Self) → is_lt (Self.Key.cmp (key a) (key b)) ≡ Self.before (Self.Ordered.key a) (Self.Ordered.key b) };

    // two records with neither before have the same key
    ghost total: { (a b : Self) → Self.Key.cmp (key a) (key b) ≡ Equal → key a ≡ key b };
}
