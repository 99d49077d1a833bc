// The policies.

// How a new job is compared with those of the queue.
#[derive(Clone, Copy, Debug, PartialEq, Eq)]
pub enum Policy {
    FixedPriority,
    EarliestDeadline,
    ShortestJob,
}
