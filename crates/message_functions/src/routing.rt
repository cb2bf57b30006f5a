//! Loose routing (RFC 3261, sections 16.4 and 16.12).
ghost use Rattle.std.specs.List.{filter, flat_map, list_any, list_all};
ghost use Rattle.std.specs.Option.{option_copied};
ghost use Rattle.std.specs.Prelude.{◌≡◌, ◌≤◌, ◌+◌, ◌++◌, [], ◌∷◌, ◌==◌, All, ℕ, List, IfOk, OnOk, OnErr, ℤ, IfSome, Option, Some, None, codes, length, take, not, map};
ghost use Rattle.sip_fields.specs.NameAddr.{IsNameAddrBetween, route_at};
ghost use Rattle.sip_scan.specs.Field.{IsField};
ghost use Rattle.sip_scan.specs.declared.field.Kind.TheVariants as kind;
ghost use Rattle.sip_msg.specs.Fields.{is_of};
ghost use Rattle.sip_msg.specs.Table.{Reads};
ghost use Rattle.msg_edits.specs.declared.parts.Edit.TheVariants.{Cut, Insert};
ghost use Rattle.host_meaning.specs.Run.{Received, received, around, ComesTo};
ghost use Rattle.host_meaning.specs.declared.routing.RouteValue.{RouteValue};
ghost use Rattle.host_meaning.specs.Routing.{alone, route_value, values_of, from_strict, top_cut, onward, way, is_among, cuts_in, route_line, back_edit, way_edits, first_call, settled, loose_route};
ghost use Rattle.message_functions.specs.Edits.{Makes, GoesOn};
ghost use Rattle.message_functions.specs.Ways.{shown, LiesIn, IsRouted};

use crate::edits::{cut, insert};
use crate::kinds::is_of;
use crate::ours::{is_loose, is_ours};
use arrayvec::ArrayVec;
use cfg_tree::Parameters;
use host_meaning::{RouteValue, Settings};
use msg_edits::Edits;
use pv_table::{Facts, bytes_at};
use pv_values::Text;
use sip_fields::{NameAddr, read_route};
use sip_msg::Message;
use sip_scan::{HeaderSpan, Kind};
use sip_words::Span;
use std::alloc::{AllocError as NoMemory, Global};

/// The way of a request so far.
#[derive(Drop)]
struct Way<'a> {
    /// Its target.
    uri: &'a [u8],
    destination: Option<&'a [u8]>,
    /// Where the values begin that are cut: the last one, the top one and the next.
    cut: ArrayVec<usize, 3>,
    /// The values that are left.
    left: &'a [RouteValue],
    /// A target that goes back among the Route fields.
    back: Option<&'a [u8]>,
}

/// Where a request goes.
#[derive(Drop)]
struct Routed {
    uri: Text,
    destination: Option<Text>,
}

/// What is cut with a value where its field stays.
fn alone(before: Option<usize>, whole: Span, next: Option<usize>) -> Span
    ensures { result ≡ alone before whole next }
{
    match (before, next) {
        (_, Some(next)) => Span {
            from: whole.from,
            to: next,
        },
        (None, None) => whole,
        (Some(end), None) => Span {
            from: end,
            to: whole.to,
        },
    }
}

/// A value that was read behind the end of the one before.
fn route_value(before: Option<usize>, value: NameAddr) -> RouteValue
    ensures { result ≡ route_value before value }
{
    RouteValue {
        uri: value.uri,
        from: value.whole.from,
        alone: alone(before, value.whole, value.next),
    }
}

/// The value of a Route field that begins at `from`.
fn value_at(b: &[u8], field: &HeaderSpan, from: usize) -> Option<NameAddr>
    requires order { from ≤ field.now.value.to }
    requires within { field.now.value.to ≤ length b.now }
    ensures value { result ≡ route_at (take field.now.value.to b.now) from }
    ensures between { IfSome result (IsNameAddrBetween from field.now.value.to) }
{
    let at = Span {
        from,
        to: field.value.to,
    };
    match read_route(b, at) {
        Ok(value) => Some(value),
        Err(_) => None,
    }
}

/// Puts the values of a Route field behind the others.
fn push_values(b: &[u8], field: &HeaderSpan, values: &mut Vec<RouteValue>) -> Result<(), NoMemory>
    requires { IsField b.now field.now }
    ensures values { OnOk result (values.new.items ≡ values.old.items ++ values_of b.now field.now) }
    ensures lie { OnOk result (All (LiesIn b.now) values.old.items → All (LiesIn b.now) values.new.items) }
{
    let mut before = None;
    let mut next = Some(field.value.from);
    while let Some(place) = next {
        let Some(value) = value_at(b, field, place) else {
            break;
        };
        values.push(route_value(before, value))?;
        before = Some(value.whole.to);
        next = value.next;
    }
    Ok(())
}

/// The values of all Route fields.
fn route_values(alloc: Global, b: &[u8], fields: &[HeaderSpan]) -> Result<Vec<RouteValue>, NoMemory>
    requires { All (IsField b.now) fields.now }
    ensures values { IfOk result (λ values. values.items ≡ flat_map (values_of b.now) (filter (is_of kind.Route) fields.now)) }
    ensures lie { IfOk result (λ values. All (LiesIn b.now) values.items) }
{
    let mut values = Vec::new(alloc);
    for field in fields {
        if is_of(Kind::Route, field) {
            push_values(b, field, &mut values)?;
        }
    }
    Ok(values)
}

impl<'a> Way<'a> {
    /// A strict router sent the request here where the target is ours and has `lr`: the last Route value is its target.
    fn from_strict(self, b: &'a [u8], settings: &Settings, parameters: &Parameters) -> Way<'a>
        requires lie { All (LiesIn b.now) self.left.now }
        requires room { length self.cut.items ≤ 0 }
        ensures way { (patterns : List (List ℕ)) (received : Option Received) → shown result ≡ from_strict (around parameters.now patterns settings.now received) b.now (shown self.entry) }
        ensures lie { All (LiesIn b.now) result.left.now }
        ensures room { length result.cut.items ≤ 1 }
    {
        let left = self.left;
        if !is_ours(self.uri, settings, parameters) || !is_loose(self.uri) {
            return self;
        }
        let Some(last) = left.last() else {
            return self;
        };
        let mut cut = self.cut;
        cut.push(last.from);
        Way {
            uri: bytes_at(b, last.uri),
            destination: self.destination,
            cut,
            left: &left[..left.len() - 1],
            back: self.back,
        }
    }

    /// A top value that is ours is cut.
    fn top_cut(self, b: &'a [u8], settings: &Settings, parameters: &Parameters) -> Way<'a>
        requires lie { All (LiesIn b.now) self.left.now }
        requires room { length self.cut.items ≤ 1 }
        ensures way { (patterns : List (List ℕ)) (received : Option Received) → shown result ≡ top_cut (around parameters.now patterns settings.now received) b.now (shown self.entry) self.entry.left.now }
        ensures lie { All (LiesIn b.now) result.left.now }
        ensures room { length result.cut.items ≤ 2 }
    {
        let [top, rest @ ..] = self.left else {
            return self;
        };
        if !is_ours(bytes_at(b, top.uri), settings, parameters) {
            return self;
        }
        let mut cut = self.cut;
        cut.push(top.from);
        Way {
            uri: self.uri,
            destination: self.destination,
            cut,
            left: rest,
            back: self.back,
        }
    }

    /// The next router: by the destination where it is a loose one. A strict one becomes the target, and the target goes
    /// behind the Route fields.
    fn onward(self, b: &'a [u8]) -> Way<'a>
        requires lie { All (LiesIn b.now) self.left.now }
        requires room { length self.cut.items ≤ 2 }
        ensures { shown result ≡ onward b.now (shown self.entry) }
    {
        let [next, rest @ ..] = self.left else {
            return self;
        };
        let router = bytes_at(b, next.uri);
        if is_loose(router) {
            return Way {
                uri: self.uri,
                destination: Some(router),
                cut: self.cut,
                left: self.left,
                back: self.back,
            };
        }
        let mut cut = self.cut;
        cut.push(next.from);
        Way {
            uri: router,
            destination: self.destination,
            cut,
            left: rest,
            back: Some(self.uri),
        }
    }
}

/// The way of a request with this target and destination, whose Route values are these.
fn way_of<'a>(
    b: &'a [u8],
    values: &'a [RouteValue],
    uri: &'a [u8],
    destination: Option<&'a [u8]>,
    settings: &Settings,
    parameters: &Parameters,
) -> Way<'a>
    requires { All (LiesIn b.now) values.now }
    ensures { (patterns : List (List ℕ)) (received : Option Received) → shown result ≡ way (around parameters.now patterns settings.now received) b.now values.now uri.now (option_copied destination.entry) }
{
    let way = Way {
        uri,
        destination,
        cut: ArrayVec::new(),
        left: values,
        back: None,
    };
    way.from_strict(b, settings, parameters)
        .top_cut(b, settings, parameters)
        .onward(b)
}

/// Whether the value is cut.
fn is_among(cut: &[usize], value: &RouteValue) -> bool
    ensures { result ≡ is_among cut.now value.now }
{
    for place in cut {
        if *place == value.from {
            return true;
        }
    }
    false
}

/// Whether all values are cut.
fn are_among(cut: &[usize], values: &[RouteValue]) -> bool
    ensures { result ≡ list_all (is_among cut.now) values.now }
{
    for value in values {
        if !is_among(cut, value) {
            return false;
        }
    }
    true
}

/// Cuts each of the values that is cut, by an edit of its own, and tells whether all fit.
fn cut_alone(places: &[usize], values: &[RouteValue], edits: &mut Edits) -> bool
    ensures { Makes edits.old (map (λ (v : RouteValue). Cut v.alone) (filter (is_among places.now) values.now)) edits.new result }
{
    for value in values {
        if is_among(places, value) && !cut(edits, value.alone) {
            return false;
        }
    }
    true
}

/// Cuts what is cut in a field that has these values, and tells whether all fits.
fn cut_in(places: &[usize], field: &HeaderSpan, values: &[RouteValue], edits: &mut Edits) -> bool
    ensures { Makes edits.old (cuts_in places.now field.now values.now) edits.new result }
{
    if are_among(places, values) {
        cut(edits, field.whole)
    } else {
        cut_alone(places, values, edits)
    }
}

/// Cuts what is cut in the Route fields, and tells whether all fits.
fn cut_routes(
    alloc: Global,
    b: &[u8],
    fields: &[HeaderSpan],
    places: &[usize],
    edits: &mut Edits,
) -> Result<bool, NoMemory>
    requires { All (IsField b.now) fields.now }
    ensures ok { IfOk result (λ made. Makes edits.old (flat_map (λ f. cuts_in places.now f (values_of b.now f)) (filter (is_of kind.Route) fields.now)) edits.new made) }
    ensures err { OnErr result (GoesOn edits.old edits.new) }
{
    let mut values = Vec::new(alloc);
    for field in fields {
        if is_of(Kind::Route, field) {
            values.clear();
            push_values(b, field, &mut values)?;
            if !cut_in(places, field, values.as_slice(), edits) {
                return Ok(false);
            }
        }
    }
    Ok(true)
}

/// `Route: <URI>`
fn route_line(alloc: Global, uri: &[u8]) -> Result<Vec<u8>, NoMemory>
    ensures { IfOk result (λ text. text.items ≡ route_line uri.now) }
{
    let mut text = Vec::from_slice(alloc, b"Route: <")?;
    text.extend_from_slice(uri)?;
    text.extend_from_slice(b">\r\n")?;
    Ok(text)
}

/// Puts a target back among the Route fields, and tells whether that fits.
fn put_back(
    alloc: Global,
    m: &Message,
    back: Option<&[u8]>,
    edits: &mut Edits,
) -> Result<bool, NoMemory>
    requires { 2 ≤ m.now.head.body }
    ensures ok { IfOk result (λ made. (bytes : List ℕ) → Makes edits.old (back_edit (received bytes m.now) (option_copied back.entry)) edits.new made) }
    ensures err { OnErr result (edits.new ≡ edits.old) }
{
    match back {
        Some(uri) => {
            let line = route_line(alloc, uri)?;
            let made = insert(alloc, edits, m.head.body - 2, line.as_slice())?;
            Ok(made)
        }
        None => Ok(true),
    }
}

/// Makes the edits of a way, and tells whether they all fit.
fn make_edits(
    alloc: Global,
    b: &[u8],
    m: &Message,
    way: &Way<'_>,
    edits: &mut Edits,
) -> Result<bool, NoMemory>
    requires { Reads b.now m.now }
    ensures ok { IfOk result (λ made. Makes edits.old (way_edits (received b.now m.now) (shown way.now)) edits.new made) }
    ensures err { OnErr result (GoesOn edits.old edits.new) }
{
    let fields = m.head.fields.as_slice();
    if !cut_routes(alloc, b, fields, way.cut.as_slice(), edits)? {
        return Ok(false);
    }
    let made = put_back(alloc, m, way.back, edits)?;
    Ok(made)
}

/// A copy of a text, where there is one.
fn copied(alloc: Global, text: Option<&[u8]>) -> Result<Option<Text>, NoMemory>
    ensures { IfOk result (λ copy. copy ≡ option_copied text.entry) }
{
    match text {
        Some(text) => Ok(Some(Text::from_slice(alloc, text)?)),
        None => Ok(None),
    }
}

/// Makes the edits of a way and answers where the request goes; None, with no edit made, where they don't all fit.
fn follow(
    alloc: Global,
    b: &[u8],
    m: &Message,
    way: &Way<'_>,
    edits: &mut Edits,
) -> Result<Option<Routed>, NoMemory>
    requires { Reads b.now m.now }
    ensures ok { IfOk result (λ o. IsRouted (shown way.now) (way_edits (received b.now m.now) (shown way.now)) edits.old edits.new o) }
    ensures err { OnErr result (edits.new ≡ edits.old) }
{
    let uri = Text::from_slice(alloc, way.uri)?;
    let destination = copied(alloc, way.destination)?;
    let before = edits.len();
    match make_edits(alloc, b, m, way, edits) {
        Ok(true) => Ok(Some(Routed { uri, destination })),
        Ok(false) => {
            edits.truncate(before);
            Ok(None)
        }
        Err(fault) => {
            edits.truncate(before);
            Err(fault)
        }
    }
}

/// The text, where there is one.
fn bytes_of(text: &Option<Text>) -> Option<&[u8]>
    ensures { option_copied result ≡ text.now }
{
    match text {
        Some(text) => Some(text.bytes()),
        None => None,
    }
}

/// Whether there is a Route field.
fn has_route(fields: &[HeaderSpan]) -> bool
    ensures { result ≡ not (length (filter (is_of kind.Route) fields.now) == 0) }
{
    for field in fields {
        if is_of(Kind::Route, field) {
            return true;
        }
    }
    false
}

/// Routes the request by its Route fields, and answers the code; `loose_route` keeps it.
fn first_call(
    alloc: Global,
    b: &[u8],
    m: &Message,
    facts: &mut Facts,
    settings: &Settings,
    parameters: &Parameters,
) -> Result<i64, NoMemory>
    requires { Reads b.now m.now }
    ensures ok { IfOk result (λ n. (patterns : List (List ℕ)) → let r = received b.now m.now in ComesTo (first_call (around parameters.now patterns settings.now (Some r)) r) facts.old n (record facts.new { loose_route = Some n })) }
    ensures err { OnErr result (facts.new ≡ facts.old) }
{
    let fields = m.head.fields.as_slice();
    if !has_route(fields) {
        return Ok(-1);
    }
    let values = route_values(alloc, b, fields)?;
    let uri = facts.uri.bytes();
    let destination = bytes_of(&facts.destination);
    let way = way_of(b, values.as_slice(), uri, destination, settings, parameters);
    let Some(routed) = follow(alloc, b, m, &way, &mut facts.edits)? else {
        return Ok(-2);
    };
    facts.uri = routed.uri;
    facts.destination = routed.destination;
    Ok(1)
}

/// Loose routing: sets the target and the destination by the Route fields, and cuts of them what is used up. 1; -1 without
/// a Route field; -2, with nothing changed, where its edits don't all fit. A later call changes nothing and answers the same.
pub fn loose_route(
    alloc: Global,
    b: &[u8],
    m: &Message,
    facts: &mut Facts,
    settings: &Settings,
    parameters: &Parameters,
) -> Result<i64, NoMemory>
    requires { Reads b.now m.now }
    ensures ok { IfOk result (λ n. (patterns : List (List ℕ)) → let r = received b.now m.now in ComesTo (loose_route (around parameters.now patterns settings.now (Some r)) r) facts.old n facts.new) }
    ensures err { OnErr result (facts.new ≡ facts.old) }
{
    if let Some(code) = facts.loose_route {
        return Ok(code);
    }
    let code = first_call(alloc, b, m, facts, settings, parameters)?;
    facts.loose_route = Some(code);
    Ok(code)
}
