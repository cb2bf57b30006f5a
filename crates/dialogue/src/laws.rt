//! Laws of courses. Each function states a law, and does nothing when it is called.
ghost use Rattle.std.specs.Prelude.{List, [], ◌∷◌, ◌++◌};
ghost use Rattle.dialogue.specs.Course.{Course, Ends, Asks, Takes, and_then};
ghost use Rattle.dialogue.specs.Items.{Comes, Goes};
ghost use Rattle.dialogue.specs.declared.item.CourseItem.{CourseItem as Item};
ghost use Rattle.dialogue.specs.declared.item.CourseItem.TheVariants.{Told};

/// What is left of a course goes on as the course does, and comes to its end.
pub fn courses_go_on<Ask, Answer, End>()
    ensures none { (c : Course Ask Answer End) → Goes c [] c }
    ensures goes { (c d e : Course Ask Answer End) (is js : List (Item Ask Answer)) → Goes c is d → Goes d js e → Goes c (is ++ js) e }
    ensures comes { (c d : Course Ask Answer End) (is js : List (Item Ask Answer)) (end : End)
        → Goes c is d → Comes d js end → Comes c (is ++ js) end }
    ensures asks { (c : Course Ask Answer End) (is : List (Item Ask Answer)) (ask : Ask) (next : Answer → Course Ask Answer End) (answer : Answer)
        → Goes c is (Asks ask next) → Goes c (is ++ Told ask answer ∷ []) (next answer) }
    ensures ends { (c : Course Ask Answer End) (is : List (Item Ask Answer)) (end : End) → Goes c is (Ends end) → Comes c is end }
{}

/// A course and what comes after its end: the items of the first, and then those of what comes after.
pub fn courses_follow<Ask, Answer, Middle, End>()
    ensures comes { (c : Course Ask Answer Middle) (after : Middle → Course Ask Answer End) (is js : List (Item Ask Answer)) (middle : Middle) (end : End)
        → Comes c is middle → Comes (after middle) js end → Comes (and_then c after) (is ++ js) end }
    ensures goes { (c d : Course Ask Answer Middle) (after : Middle → Course Ask Answer End) (is : List (Item Ask Answer))
        → Goes c is d → Goes (and_then c after) is (and_then d after) }
{}
