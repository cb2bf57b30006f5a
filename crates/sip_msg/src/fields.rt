//! Header fields by their kinds.
ghost use Rattle.std.specs.Prelude.{◌≡◌, All, IfSome};
ghost use Rattle.sip_scan.specs.Field.{IsField};
ghost use Rattle.sip_msg.specs.Fields.{IsTally, first, count, is_missing, is_repeated};

use sip_scan::{HeaderSpan, Kind};

/// The fields of a head, with the place of the first of each kind and how many there are.
#[derive(Drop)]
pub struct Kinds<'a> {
    pub fields: &'a [HeaderSpan],
    pub firsts: [usize; Kind::COUNT],
    pub counts: [usize; Kind::COUNT],
    ghost tally: { IsTally fields.now firsts counts },
}

impl<'a> Kinds<'a> {
    /// Walks once over the fields.
    pub fn of(fields: &'a [HeaderSpan]) -> Kinds<'a>
        ensures { result.fields.now ≡ fields.now }
    {
        let mut firsts = [0; Kind::COUNT];
        let mut counts = [0; Kind::COUNT];
        for (place, field) in fields.iter().enumerate() {
            let kind = field.kind.number();
            if counts[kind] == 0 {
                firsts[kind] = place;
            }
            counts[kind] += 1;
        }
        Kinds {
            fields,
            firsts,
            counts,
        }
    }

    /// The first field of this kind.
    fn found(&self, kind: Kind) -> Option<HeaderSpan>
        ensures { result ≡ first kind self.now.fields.now }
    {
        let number = kind.number();
        if self.counts[number] == 0 {
            return None;
        }
        self.fields.get(self.firsts[number]).copied()
    }

    /// The first field of this kind, which is a field of these bytes.
    #[tactic(auto, using(crate::proofs::Firsts::found_is))]
    pub fn first(&self, b: &[u8], kind: Kind) -> Option<HeaderSpan>
        requires { All (IsField b.now) self.now.fields.now }
        ensures value { result ≡ first kind self.now.fields.now }
        ensures is { IfSome result (IsField b.now) }
    {
        self.found(kind)
    }

    /// How many fields of this kind there are.
    pub fn count(&self, kind: Kind) -> usize
        ensures { result ≡ count kind self.now.fields.now }
    {
        self.counts[kind.number()]
    }

    /// Whether Via, From, To, Call-ID or CSeq is absent.
    #[tactic(auto, unfolding(crate::specs::Fields::is_missing))]
    pub fn is_missing(&self) -> bool
        ensures { result ≡ is_missing self.now.fields.now }
    {
        self.count(Kind::Via) == 0
            || self.count(Kind::From) == 0
            || self.count(Kind::To) == 0
            || self.count(Kind::CallId) == 0
            || self.count(Kind::CSeq) == 0
    }

    /// Whether From, To, Call-ID, CSeq, Max-Forwards or Content-Length stands twice.
    #[tactic(auto, unfolding(crate::specs::Fields::is_repeated))]
    pub fn is_repeated(&self) -> bool
        ensures { result ≡ is_repeated self.now.fields.now }
    {
        1 < self.count(Kind::From)
            || 1 < self.count(Kind::To)
            || 1 < self.count(Kind::CallId)
            || 1 < self.count(Kind::CSeq)
            || 1 < self.count(Kind::MaxForwards)
            || 1 < self.count(Kind::ContentLength)
    }
}
