//! A copy of the facts of a run, for who may have to put them back, and of those of its parts that are sent on.
ghost use Rattle.std.specs.Prelude.{◌≡◌, IfOk};

use crate::facts::{Facts, Outcome, Relay, Response, Target};
use msg_edits::{Edit, Edits};
use pv_values::Text;
use sqlite_items::Items;
use std::alloc::{AllocError as NoMemory, Global};

impl Facts {
    pub fn copy(&self, alloc: Global) -> Result<Facts, NoMemory>
        ensures { IfOk result (λ f. f ≡ self.now) }
    {
        Ok(Facts {
            edits: edits_copy(alloc, &self.edits)?,
            uri: self.uri.copy(alloc)?,
            destination: text_copy(alloc, &self.destination)?,
            targets: targets_copy(alloc, self.targets.as_slice())?,
            avps: self.avps.copy(alloc)?,
            outcome: self.outcome.copy(alloc)?,
            responses: responses_copy(alloc, self.responses.as_slice())?,
            ..*self
        })
    }
}

impl Outcome {
    fn copy(&self, alloc: Global) -> Result<Outcome, NoMemory>
        ensures { IfOk result (λ o. o ≡ self.now) }
    {
        match self {
            Outcome::Undecided => Ok(Outcome::Undecided),
            Outcome::Stateless(response) => Ok(Outcome::Stateless(response.copy(alloc)?)),
            Outcome::Answered(response) => Ok(Outcome::Answered(response.copy(alloc)?)),
            Outcome::Relayed(relay) => Ok(Outcome::Relayed(relay.copy(alloc)?)),
            Outcome::Suspended => Ok(Outcome::Suspended),
        }
    }
}

impl Relay {
    fn copy(&self, alloc: Global) -> Result<Relay, NoMemory>
        ensures { IfOk result (λ r. r ≡ self.now) }
    {
        Ok(Relay {
            edits: edits_copy(alloc, &self.edits)?,
            uri: self.uri.copy(alloc)?,
            destination: text_copy(alloc, &self.destination)?,
            targets: targets_copy(alloc, self.targets.as_slice())?,
            absent_hops: self.absent_hops,
        })
    }
}

impl Response {
    fn copy(&self, alloc: Global) -> Result<Response, NoMemory>
        ensures { IfOk result (λ r. r ≡ self.now) }
    {
        Ok(Response {
            code: self.code,
            reason: self.reason.copy(alloc)?,
        })
    }
}

impl Target {
    fn copy(&self, alloc: Global) -> Result<Target, NoMemory>
        ensures { IfOk result (λ t. t ≡ self.now) }
    {
        Ok(Target {
            uri: self.uri.copy(alloc)?,
            destination: text_copy(alloc, &self.destination)?,
        })
    }
}

/// A text that may be absent.
pub fn text_copy(alloc: Global, text: &Option<Text>) -> Result<Option<Text>, NoMemory>
    ensures { IfOk result (λ t. t ≡ text.now) }
{
    match text {
        Some(text) => Ok(Some(text.copy(alloc)?)),
        None => Ok(None),
    }
}

/// Targets, in their order.
pub fn targets_copy(alloc: Global, targets: &[Target]) -> Result<Items<Target>, NoMemory>
    ensures { IfOk result (λ t. t ≡ targets.now) }
{
    let mut copy = Items::new(alloc);
    for target in targets {
        copy.push(target.copy(alloc)?)?;
    }
    Ok(copy)
}

fn responses_copy(alloc: Global, responses: &[Response]) -> Result<Items<Response>, NoMemory>
    ensures { IfOk result (λ r. r ≡ responses.now) }
{
    let mut copy = Items::new(alloc);
    for response in responses {
        copy.push(response.copy(alloc)?)?;
    }
    Ok(copy)
}

/// Edits, in their order.
pub fn edits_copy(alloc: Global, edits: &Edits) -> Result<Edits, NoMemory>
    ensures { IfOk result (λ e. e ≡ edits.now) }
{
    let mut copy = Edits::new();
    for edit in edits.as_slice() {
        let made = match edit {
            Edit::Cut(at) => copy.cut(*at),
            Edit::Insert { place, text } => copy.insert(alloc, *place, text.as_slice()),
        };
        match made {
            Ok(()) => {}
            Err(_) => return Err(NoMemory),
        }
    }
    Ok(copy)
}
