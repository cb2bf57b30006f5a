//! The queue, its rule and its passes.
ghost use Rattle.std.specs.Prelude.{◌≡◌};
ghost use Rattle.crossbeam_queue.specs.Passes.{ruled_capacity};
ghost use Rattle.job_queue.specs.Jobs.{JobsKept, newcomer};

use crate::{Job, JobHand};
use crossbeam_queue::protocol::Protocol;
use crossbeam_queue::{Pass, RuledArrayQueue};

pub struct JobRule;

impl Protocol<Job, JobHand> for JobRule {
    ghost holds = { JobsKept };

    ghost first = { newcomer };
}

pub(crate) type Queue = RuledArrayQueue<Job, JobHand, JobRule>;

/// A worker's pass. It has no bytes.
pub type JobPass = Pass<Job, JobHand>;

/// A queue of 1,024 places.
#[derive(Drop)]
pub struct Jobs {
    pub(crate) queue: Queue,
    pub ghost places: { ruled_capacity queue ≡ 1024 },
}
