//! The law of the schedule.

ghost use Rattle.tilecore.specs.Schedule.{ScheduleLaw};

/// Over every list of events of any number of workers no tile is with two, none is done twice, none is done unclaimed,
/// and where all are done the counts added are the sums of those handed in.
pub fn schedule_law()
    ensures { ScheduleLaw }
{}
