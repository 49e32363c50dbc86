use mk_row_tools::Meeting;
use mk_run::Gate;

// A gate that holds the first reduction of whichever worker comes first until another worker has come to one.
#[derive(Drop)]
pub(crate) struct MeetingGate {
    meeting: Meeting,
}

impl MeetingGate {
    pub(crate) fn new() -> MeetingGate {
        MeetingGate {
            meeting: Meeting::new(1),
        }
    }

    // Has another worker come?
    pub(crate) fn is_met(&self) -> bool {
        self.meeting.is_met()
    }
}

impl Gate for MeetingGate {
    fn reach(&self, worker: u32, count: u64) {
        self.meeting.reach(worker, count);
    }
}
