// What a run is told before its first record, and by what means it is done.
use aftr_text::RunJob;
use area_swap::Areas;
use capture_io::{Form, Written};
use reload_plan::Slot;
use std::alloc::Global;

/// By what means a run is done.
#[derive(Drop)]
pub struct RunMeans<'a, R, G> {
    /// The right to begin threads and to wait.
    pub rt: &'a R,
    pub alloc: Global,
    /// The areas in which tables are swapped.
    pub areas: &'a Areas,
    /// What workers pass between a draw and its judgement.
    pub gate: &'a G,
}

/// What a run is told before its first record.
#[derive(Clone, Copy)]
pub struct Task<'a> {
    pub job: &'a RunJob,
    /// What became of the job's loads, one for each.
    pub slots: &'a [Slot],
    /// What the capture's header says of its records.
    pub form: Form,
    /// In which form packets are written.
    pub written: Written,
}
