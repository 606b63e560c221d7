/// Why a schedule is refused.
#[derive(Clone, Copy, Debug, PartialEq, Eq)]
pub enum ScheduleRefusal {
    /// The line of this number, from 1, has no form of a line.
    Line(u32),
    /// The line of this number isn't allowed where it stands.
    NotAllowed(u32),
    /// It has more bytes than a schedule may have.
    Length(u64),
}
