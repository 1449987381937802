//! Who deals the operations of a run to which devices.
use sched_core::SchedText;

/// One device does all, or a scheduler deals to the first devices, as many as its text says: by bursts that it is offered, or by
/// the events of an adapter.
#[derive(Drop)]
pub(crate) enum Dealing {
    Alone,
    Scheduled(SchedText),
    Forwarded(SchedText),
}
