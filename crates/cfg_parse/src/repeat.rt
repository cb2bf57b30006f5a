//! Repetition: items, one after the other.

ghost use Rattle.std.specs.Prelude.{List, Option};
ghost use Rattle.cfg_tree.specs.declared.token.Token.{Token};
ghost use Rattle.cfg_parse.specs.Reader.{Reader, Reads, Steps};
ghost use Rattle.cfg_parse.specs.Reader as spec;

use crate::fault::Fault;
use crate::tokens::Tokens;
use sqlite_items::Items;

/// Item by item, after those that were found, until none comes. Each item takes a token.
#[tactic(auto, using(crate::proofs::Turns::turns), unfolding(crate::specs::Reader::many))]
pub fn many<A: Drop, F: Fn(&mut Tokens<'_>) -> Result<Option<A>, Fault>>(
    tokens: &mut Tokens<'_>,
    mut found: Items<A>,
    next: F,
) -> Result<Items<A>, Fault>
    requires { F.IsAlwaysCallable next }
    ensures { (step : Reader (Option A)) → Steps step (F.post next) → Reads (spec.many step found tokens.old) result tokens.new }
{
    for _turn in 0..tokens.count() {
        match next(tokens) {
            Ok(Some(item)) => found.push(item)?,
            Ok(None) => return Ok(found),
            Err(fault) => return Err(fault),
        }
    }
    Ok(found)
}
