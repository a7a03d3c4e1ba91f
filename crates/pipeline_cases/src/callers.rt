// The caller that the README of round_pipeline shows.
ghost use Rattle.std.specs.Prelude.{◌<◌};

use crate::numbers::{Checker, Counter, Marker, Run, buffers_of};
use round_pipeline::Pipeline;
use std::alloc::{AllocError, Global};
use std::sync::Wait;
use std::thread::Threads;

/// How many workers a run has, and how many buffers each of them has.
#[derive(Clone, Copy)]
pub struct Crew {
    pub workers: u64,
    pub buffers: u64,
}

/// Runs over a source by the workers of a crew.
pub fn run<R: Threads + Wait + Sync>(
    rt: &R,
    alloc: Global,
    crew: Crew,
    source: Counter,
    sink: Checker,
) -> Result<Run, AllocError>
    requires { 0 < crew.workers }
{
    let mut pipeline = Pipeline::new(alloc);
    'workers: for number in 0..crew.workers {
        let buffers = buffers_of(alloc, crew.buffers)?;
        pipeline.add_worker(alloc, Marker::new(number), buffers)?;
    }
    Ok(pipeline.run(rt, alloc, source, sink))
}
