ghost use Rattle.std.specs.Prelude.{◌≡◌};
ghost use Rattle.command_ends.specs.Statuses.{IsNoSourceOrNoMemory, number_of};

use beam_text::ScheduleRefusal;
use beam_values::{Bytes, FaultNote, NoMemory};
use combine_lift::LiftRefusal;
use plan_reader::PlanRefusal;
use std::alloc::Global;

/// How a command ended.
#[derive(Debug, Drop)]
pub enum Status {
    /// The whole text was written.
    Ok,
    /// The whole help text was written.
    Help,
    /// The words are no command.
    Usage,
    /// The plan's file has no plan.
    BadPlan(PlanRefusal),
    /// There is no file of this name.
    NoSource(Bytes),
    /// Opening a source failed too often, at the kit of this number.
    SourceFault(u32),
    /// Work failed too often.
    WorkFault(FaultNote),
    /// Writing the text failed too often.
    SinkFault,
    /// Memory was asked for and there was none.
    NoMemory,
    /// A file of this name was opened with different lengths, in bytes: the first kit met the length `first`,
    /// and another kit the length `other`.
    FileChanged { name: Bytes, first: u64, other: u64 },
    /// The schedule is too long, or has a line that is none or isn't allowed where it stands.
    BadSchedule(ScheduleRefusal),
    /// The plan isn't lifted, or its parts or sums are refused.
    NotLifted(LiftRefusal),
}

impl Status {
    /// The exit status of the program. It takes no memory.
    pub fn number(&self) -> u8
        ensures { result ≡ number_of self.now }
    {
        match self {
            Status::Ok => 0,
            Status::Help => 0,
            Status::Usage => 2,
            Status::BadPlan(_) => 3,
            Status::NoSource(_) => 4,
            Status::SourceFault(_) => 5,
            Status::WorkFault(_) => 6,
            Status::SinkFault => 7,
            Status::NoMemory => 8,
            Status::FileChanged { .. } => 9,
            Status::BadSchedule(_) => 10,
            Status::NotLifted(_) => 11,
        }
    }
}

impl From<NoMemory> for Status {
    ghost use Rattle.std.specs.Prelude.{◌≡◌};
    ghost use Rattle.command_ends.specs.declared.status.Status.TheVariants as status;

    ghost from_gives = { λ _ s. s ≡ status.NoMemory };

    fn from(_e: NoMemory) -> Status {
        Status::NoMemory
    }
}

/// The status of an absent file; NoMemory where there is no place for its name.
pub fn no_source(alloc: Global, name: &[u8]) -> Status
    ensures { IsNoSourceOrNoMemory name.now result }
{
    match Bytes::from_slice(alloc, name) {
        Ok(name) => Status::NoSource(name),
        Err(_refused) => Status::NoMemory,
    }
}
