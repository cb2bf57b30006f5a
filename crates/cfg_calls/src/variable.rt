//! Variables, and the texts that are expanded.

ghost use Rattle.std.specs.Prelude.{◌≡◌, IfOk, option_map};
ghost use Rattle.cfg_tree.specs.Names as names;
ghost use Rattle.cfg_tree.specs.Refusals.{one, from_some, accepted, join};
ghost use Rattle.cfg_tree.specs.declared.script.Part.TheOpen.{Part-F};
ghost use Rattle.cfg_tree.specs.declared.script.Part.TheViews.{roll-Part};
ghost use Rattle.cfg_lex.specs.Pieces.{as_piece};
ghost use Rattle.cfg_calls.specs.Following.{Follows};
ghost use Rattle.cfg_calls.specs.Layers.{piece_within, var_layer, avp_layer, header_layer, suspension_layer};
ghost use Rattle.cfg_tree.specs.declared.refusal_kind.RefusalKind.TheVariants.{UnknownVariable};

use crate::checker::{Checker, number};
use crate::host;
use crate::joins::with_item;
use crate::known::Known;
use cfg_lex::{Piece, pieces};
use cfg_settings::table_and_key;
use cfg_tree::{Part, RawVariable, RefusalKind, TableUse, Variable};
use pv_values::{Place, PvUse, Text, Transformation};
use sqlite_items::{Boxed, Items};
use std::alloc::{AllocError as NoMemory, Global};

/// At most so many variables are open at a place of a text, each in the key of the one before it.
const NESTED: usize = 32;

/// The name of an AVP: `s:` before it says nothing.
fn avp_name(inner: &[u8]) -> &[u8]
    ensures { names.some_text result.now ≡ names.avp_name inner.now }
{
    match inner {
        [b's', b':', name @ ..] => name,
        _ => inner,
    }
}

/// A part with a transformation.
fn transformed(
    alloc: Global,
    part: Option<Part>,
    transformation: Option<Transformation>,
) -> Result<Option<Part>, NoMemory>
    ensures { IfOk result (λ r. r ≡ join (λ p tr. roll-Part (Part-F.Transformed tr p)) part transformation) }
{
    match (part, transformation) {
        (Some(part), Some(transformation)) => {
            let part = Boxed::new(alloc, part)?;
            Ok(Some(Part::Transformed(transformation, part)))
        }
        _ => Ok(None),
    }
}

impl Checker {
    /// A variable without brackets.
    fn bare(&mut self, at: Place, name: &[u8]) -> Result<Option<Part>, NoMemory>
        ensures { IfOk result (λ v. Follows (one roll-Part (names.bare_layer at name.now)) self.old v self.new) }
    {
        if name == b"rc".as_slice() || name == b"retcode".as_slice() {
            return Ok(Some(Part::Code));
        }
        match host::variable(name) {
            Some(variable) => Ok(Some(Part::Host(variable))),
            None => self.refuse(RefusalKind::UnknownVariable, at),
        }
    }

    /// `$var(NAME)`
    fn var(&mut self, at: Place, name: &[u8]) -> Result<Option<Part>, NoMemory>
        ensures { IfOk result (λ v. Follows (one roll-Part (var_layer at name.now)) self.old v self.new) }
    {
        if name.is_empty() {
            return self.refuse(RefusalKind::UnknownVariable, at);
        }
        let n = self.var_number(name)?;
        Ok(n.map(Part::Var))
    }

    /// `$avp(NAME)`
    fn avp(&mut self, at: Place, inner: &[u8]) -> Result<Option<Part>, NoMemory>
        ensures { IfOk result (λ v. Follows (one roll-Part (avp_layer at inner.now)) self.old v self.new) }
    {
        let name = avp_name(inner);
        if name.is_empty() {
            return self.refuse(RefusalKind::UnknownVariable, at);
        }
        let name = Text::from_slice(self.alloc(), name)?;
        Ok(Some(Part::Host(PvUse::Avp(name))))
    }

    /// `$hdr(NAME)`
    fn header(&mut self, at: Place, name: &[u8]) -> Result<Option<Part>, NoMemory>
        ensures { IfOk result (λ v. Follows (one roll-Part (header_layer at name.now)) self.old v self.new) }
    {
        if name.is_empty() {
            return self.refuse(RefusalKind::UnknownVariable, at);
        }
        let name = Text::from_slice(self.alloc(), name)?;
        Ok(Some(Part::Host(PvUse::Header(name))))
    }

    /// `$T(NAME)`
    fn suspension(&mut self, at: Place, name: &[u8]) -> Result<Option<Part>, NoMemory>
        ensures { IfOk result (λ v. Follows (one roll-Part (suspension_layer at name.now)) self.old v self.new) }
    {
        match host::suspension_variable(name) {
            Some(variable) => Ok(Some(Part::Host(variable))),
            None => self.refuse(RefusalKind::UnknownVariable, at),
        }
    }

    /// The transformation of this name.
    fn transformation(&mut self, at: Place, name: &[u8]) -> Result<Option<Transformation>, NoMemory>
        ensures { IfOk result (λ v. Follows (from_some (names.named name.now names.transformation_names) UnknownVariable at accepted) self.old v self.new) }
    {
        match host::transformation(name) {
            Some(transformation) => Ok(Some(transformation)),
            None => self.refuse(RefusalKind::UnknownVariable, at),
        }
    }

    /// An item of a table: `TABLE=>KEY` stands in the brackets.
    #[cycle(expansions)]
    fn item(
        &mut self,
        depth: usize,
        known: &Known,
        at: Place,
        way: TableUse,
        inner: &[u8],
    ) -> Result<Option<Part>, NoMemory>
        ensures { IfOk result (λ v. Follows (one roll-Part (names.item_layer known.now (names.expansion_within depth known.now at) at way inner.now)) self.old v self.new) }
    {
        let Some((table, key)) = table_and_key(inner) else {
            return self.refuse(RefusalKind::UnknownVariable, at);
        };
        let Some(place) = known.table(table) else {
            return self.refuse(RefusalKind::UnknownVariable, at);
        };
        let table = number(place)?;
        match self.expansion_within(depth, known, at, key)? {
            Some(key) => Ok(Some(Part::Item(way, table, key))),
            None => Ok(None),
        }
    }

    /// A variable with brackets.
    #[cycle(expansions)]
    fn with_inner(
        &mut self,
        depth: usize,
        known: &Known,
        at: Place,
        name: &[u8],
        inner: &[u8],
    ) -> Result<Option<Part>, NoMemory>
        ensures { IfOk result (λ v. Follows (one roll-Part (names.inner_layer known.now (names.expansion_within depth known.now at) at name.now inner.now)) self.old v self.new) }
    {
        if name == b"var".as_slice() {
            self.var(at, inner)
        } else if name == b"avp".as_slice() {
            self.avp(at, inner)
        } else if name == b"hdr".as_slice() {
            self.header(at, inner)
        } else if name == b"T".as_slice() {
            self.suspension(at, inner)
        } else {
            match host::table_use(name) {
                Some(way) => self.item(depth, known, at, way, inner),
                None => self.refuse(RefusalKind::UnknownVariable, at),
            }
        }
    }

    /// A variable without its transformation.
    #[cycle(expansions)]
    fn untransformed(
        &mut self,
        depth: usize,
        known: &Known,
        at: Place,
        v: &Variable,
    ) -> Result<Option<Part>, NoMemory>
        ensures { IfOk result (λ part. Follows (one roll-Part (names.untransformed known.now (names.expansion_within depth known.now at) at v.now v.now.inner)) self.old part self.new) }
    {
        match &v.inner {
            None => self.bare(at, v.name.bytes()),
            Some(inner) => self.with_inner(depth, known, at, v.name.bytes(), inner.bytes()),
        }
    }

    /// A variable, in whose key so many others may still be opened.
    #[cycle(expansions)]
    fn variable_within(
        &mut self,
        depth: usize,
        known: &Known,
        at: Place,
        v: &Variable,
    ) -> Result<Option<Part>, NoMemory>
        ensures { IfOk result (λ part. Follows (one roll-Part (names.layer_by known.now (names.expansion_within depth known.now at) at v.now)) self.old part self.new) }
    {
        let part = self.untransformed(depth, known, at, v)?;
        match &v.transformation {
            None => Ok(part),
            Some(name) => {
                let transformation = self.transformation(at, name.bytes())?;
                transformed(self.alloc(), part, transformation)
            }
        }
    }

    /// A piece of a text that is expanded, where so many variables may still be opened.
    #[cycle(expansions)]
    fn piece(
        &mut self,
        depth: usize,
        known: &Known,
        at: Place,
        piece: &Piece,
    ) -> Result<Option<Part>, NoMemory>
        ensures { IfOk result (λ v. Follows (piece_within depth known.now at (as_piece piece.now)) self.old v self.new) }
    {
        match piece {
            Piece::Plain(text) => Ok(Some(Part::Text(text.copy(self.alloc())?))),
            Piece::Of(_) if depth == 0 => self.refuse(RefusalKind::UnknownVariable, at),
            Piece::Of(v) => self.variable_within(depth - 1, known, at, v),
        }
    }

    /// The parts of a text that is expanded, where so many variables, one in the key of another, may still be opened.
    #[cycle(expansions)]
    fn expansion_within(
        &mut self,
        depth: usize,
        known: &Known,
        at: Place,
        text: &[u8],
    ) -> Result<Option<Items<Part>>, NoMemory>
        ensures { IfOk result (λ v. Follows (names.expansion_within depth known.now at text.now) self.old v self.new) }
    {
        let Some(pieces) = pieces(self.alloc(), text)? else {
            return self.refuse(RefusalKind::UnknownVariable, at);
        };
        let mut parts = Some(Items::new(self.alloc()));
        for piece in &pieces {
            let part = self.piece(depth, known, at, piece)?;
            parts = with_item(parts, part)?;
        }
        Ok(parts)
    }

    /// The parts of a text that is expanded.
    pub fn expansion(
        &mut self,
        known: &Known,
        at: Place,
        text: &[u8],
    ) -> Result<Option<Items<Part>>, NoMemory>
        ensures { IfOk result (λ v. Follows (names.expansion known.now at text.now) self.old v self.new) }
    {
        self.expansion_within(NESTED, known, at, text)
    }

    /// A variable of the script's text.
    pub fn variable(&mut self, known: &Known, v: &RawVariable) -> Result<Option<Part>, NoMemory>
        ensures { IfOk result (λ part. Follows (names.part_of known.now v.now.at v.now.variable) self.old part self.new) }
    {
        self.variable_within(NESTED - 1, known, v.at, &v.variable)
    }
}
