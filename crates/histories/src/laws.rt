//! Laws of lists that grow, of counts that rise and of records. Each function states a law, and does nothing when it is called.
ghost use Rattle.std.specs.Prelude.{◌≡◌, ℕ, ◌+◌, List, [], ◌++◌, Option, option_map};
ghost use Rattle.std.specs.List.{flat_map};
ghost use Rattle.histories.specs.Lists.{Grows, Keeps};
ghost use Rattle.histories.specs.Counts.{Rises, Rose};
ghost use Rattle.histories.specs.Records.{records, of, given};
ghost use Rattle.histories.specs.declared.record.Recorded.{Recorded as Entry};
ghost use Rattle.histories.specs.declared.record.LogItem.{LogItem as Item};

/// A list that grew by some items and then by others grew by both, and each projection of it grew by theirs.
pub fn lists_go_on<A, B>()
    ensures append { (a b c : Option (List A)) (xs ys : List A) → Grows a b xs → Grows b c ys → Grows a c (xs ++ ys) }
    ensures keeps { (a b : Option (List A)) → Keeps a b → Grows a b [] }
    ensures projection { (f : A → List B) (a b : Option (List A)) (xs : List A)
        → Grows a b xs → Grows (option_map (flat_map f) a) (option_map (flat_map f) b) (flat_map f xs) }
{}

/// A count that stayed rose by none, and one that rose by some and then by more rose by both.
pub fn counts_go_on()
    ensures still { (a : ℕ) → Rose 0 a a }
    ensures append { (n m a b c : ℕ) → Rose n a b → Rose m b c → Rose (n + m) a c }
    ensures one { (a b : ℕ) → Rises a b → Rose 1 a b }
{}

/// The records of a history, those of one worker in it, and those that a log gave to one object, go on with the list.
pub fn records_go_on<R, N>()
    ensures records { (xs ys : List (Entry R)) → records (xs ++ ys) ≡ records xs ++ records ys }
    ensures of { (by : ℕ) (xs ys : List (Entry R)) → of by (xs ++ ys) ≡ of by xs ++ of by ys }
    ensures given { (k : ℕ) (xs ys : List (Item R N)) → given k (xs ++ ys) ≡ given k xs ++ given k ys }
{}
