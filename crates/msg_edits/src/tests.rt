//! Edited texts worked out by hand, and the limits of a list.
use crate::{Change, EditFault, Edits, LIMIT, Span, TooLong, apply, apply_after};
use std::alloc::{AllocGlobal, Global};
use std::process::Abort;

const TEXT: &[u8] = b"abcdef";

fn cut(from: usize, to: usize) -> Change<'static> {
    Change::Cut(Span { from, to })
}

fn insert(place: usize, text: &'static [u8]) -> Change<'static> {
    Change::Insert { place, text }
}

fn make(edits: &mut Edits, alloc: Global, change: Change<'static>) -> Result<(), EditFault> {
    match change {
        Change::Cut(at) => edits.cut(at),
        Change::Insert { place, text } => edits.insert(alloc, place, text),
    }
}

/// "abcdef" with these edits is `want`, in a room with bytes left over and in one that is just enough.
fn becomes(rt: &(impl Abort + AllocGlobal), shows: &str, changes: &[Change<'static>], want: &[u8]) {
    let mut edits = Edits::new();
    for change in changes {
        assert!(rt; make(&mut edits, rt.alloc(), *change).is_ok(), "{shows}");
    }
    assert_eq!(rt; edits.len(), changes.len(), "{shows}");
    let len = want.len();
    let mut room = [7; 16];
    assert!(rt; len < 16);
    assert!(rt;
        apply(TEXT, edits.as_slice(), &mut room) == Ok(len),
        "{shows}"
    );
    assert_eq!(rt; &room[..len], want, "{shows}");
    assert!(rt; room[len..].iter().all(|b| *b == 7), "{shows}");
    let mut just_enough = [7; 16];
    assert!(rt;
        apply(TEXT, edits.as_slice(), &mut just_enough[..len]) == Ok(len),
        "{shows}"
    );
    assert!(rt; just_enough == room, "{shows}");
}

#[test]
fn edited_texts(rt: HostRuntime) {
    becomes(&rt, "no edit", &[], b"abcdef");
    becomes(&rt, "cuts at both ends", &[cut(0, 1), cut(5, 6)], b"bcde");
    becomes(&rt, "adjacent cuts", &[cut(2, 4), cut(1, 2)], b"aef");
    becomes(&rt, "all is cut", &[cut(0, 6)], b"");
    becomes(
        &rt,
        "an insert inside a cut stays",
        &[cut(1, 4), insert(2, b"X")],
        b"aXef",
    );
    becomes(
        &rt,
        "inserts at both ends of a cut",
        &[insert(3, b">"), cut(1, 3), insert(1, b"<")],
        b"a<>def",
    );
    becomes(
        &rt,
        "two inserts of one place",
        &[insert(3, b"1"), insert(3, b"22")],
        b"abc122def",
    );
    becomes(&rt, "an insert at the end", &[insert(6, b"!")], b"abcdef!");
    becomes(
        &rt,
        "an insert before all",
        &[insert(0, b"> ")],
        b"> abcdef",
    );
    becomes(
        &rt,
        "from back to front",
        &[insert(5, b"y"), cut(0, 2)],
        b"cdeyf",
    );
}

/// A room that is one byte too small stays as it was, and the whole length is told.
#[test]
fn too_long(rt: HostRuntime) {
    let mut edits = Edits::new();
    assert!(rt; edits.insert(rt.alloc(), 2, b"123").is_ok());
    let mut room = [7; 8];
    assert!(rt; apply(TEXT, edits.as_slice(), &mut room) == Err(TooLong { len: 9 }));
    assert!(rt; room == [7; 8]);
    assert!(rt; apply(TEXT, edits.as_slice(), &mut []) == Err(TooLong { len: 9 }));
}

/// Changes with borrowed texts go before the edits of the list.
#[test]
fn changes_before_edits(rt: HostRuntime) {
    let mut edits = Edits::new();
    assert!(rt; edits.insert(rt.alloc(), 0, b"last ").is_ok());
    assert!(rt; edits.cut(Span { from: 4, to: 6 }).is_ok());
    let mut room = [7; 32];
    let first = [insert(0, b"first "), cut(0, 2), insert(0, b"new ")];
    let len = apply_after(TEXT, &first, edits.as_slice(), &mut room).unwrap_or(0);
    assert_eq!(rt; &room[..len], b"first new last cd".as_slice());
}

/// A cut that shares a byte with an earlier one is refused, and leaves the list.
#[test]
fn overlaps(rt: HostRuntime) {
    let mut edits = Edits::new();
    let rows = [
        (1, 4, Ok(())),
        (3, 5, Err(EditFault::Overlap)),
        (0, 2, Err(EditFault::Overlap)),
        (2, 3, Err(EditFault::Overlap)),
        (0, 6, Err(EditFault::Overlap)),
        (2, 2, Ok(())),
        (4, 6, Ok(())),
        (0, 1, Ok(())),
    ];
    for (from, to, want) in rows {
        let before = edits.len();
        assert!(rt; edits.cut(Span { from, to }) == want, "{from} to {to}");
        assert_eq!(rt;
            edits.len(),
            before + usize::from(want.is_ok()),
            "{from} to {to}"
        );
    }
}

/// The 65th edit is refused, also where it overlaps.
#[test]
fn sixty_four_edits(rt: HostRuntime) {
    let mut edits = Edits::default();
    assert!(rt; edits.is_empty());
    assert!(rt; edits.cut(Span { from: 0, to: 1 }).is_ok());
    for _ in 1..LIMIT {
        assert!(rt; edits.insert(rt.alloc(), 6, b"-").is_ok());
    }
    assert_eq!(rt; edits.len(), 64);
    assert!(rt; edits.insert(rt.alloc(), 0, b"x") == Err(EditFault::Full));
    assert!(rt; edits.cut(Span { from: 0, to: 1 }) == Err(EditFault::Full));
    assert!(rt; edits.cut(Span { from: 1, to: 2 }) == Err(EditFault::Full));
    assert_eq!(rt; edits.as_slice().len(), 64);
    let mut room = [7; 80];
    assert!(rt; apply(TEXT, edits.as_slice(), &mut room) == Ok(68));
    edits.truncate(2);
    assert!(rt; apply(TEXT, edits.as_slice(), &mut room) == Ok(6));
    assert_eq!(rt; &room[..6], b"bcdef-".as_slice());
}

/// More edits than are put in order make the same text as few do.
#[test]
fn many_changes(rt: HostRuntime) {
    let many = [insert(3, b"-"); 80];
    let mut edits = Edits::new();
    assert!(rt; edits.cut(Span { from: 1, to: 4 }).is_ok());
    assert!(rt; edits.insert(rt.alloc(), 6, b"!").is_ok());
    let mut room = [7; 96];
    assert!(rt; apply_after(TEXT, &many, edits.as_slice(), &mut room) == Ok(84));
    assert_eq!(rt; room.first(), Some(&b'a'));
    assert!(rt; room[1..81].iter().all(|b| *b == b'-'));
    assert_eq!(rt; &room[81..84], b"ef!".as_slice());
    assert!(rt; room[84..].iter().all(|b| *b == 7));
}

/// The example of [`Edits`].
#[test]
fn a_cut_and_an_insert_replace_two_bytes(rt: HostRuntime) {
    let mut edits = Edits::new();
    assert!(rt; edits.cut(Span { from: 1, to: 3 }).is_ok());
    assert!(rt; edits.insert(rt.alloc(), 1, b"X").is_ok());
    let mut room = [0; 8];
    assert!(rt; apply(TEXT, edits.as_slice(), &mut room) == Ok(5));
    assert_eq!(rt; &room[..5], b"aXdef".as_slice());
}
