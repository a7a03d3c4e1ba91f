// Captures of several records, in three forms: the three files, the summary and the status, compared whole.
use crate::captures::Form;
use crate::due::is_right;
use crate::given::RUNS;
use crate::runs::run_line;
use std::alloc::Global;
use std::sync::Wait;
use std::test::Fail;
use std::thread::Threads;
use worker_gate::OpenGate;

/// The run of this line by so many workers, over a capture of this form, leaves what the line says.
pub fn leaves<R: Threads + Wait + Sync>(
    rt: &R,
    alloc: Global,
    form: Form,
    line: &str,
    workers: &str,
) -> Result<bool, Fail> {
    let line = line.replace(alloc, "{workers}", workers)?;
    let ran = run_line(rt, alloc, form, &line, &OpenGate)?;
    is_right(alloc, form, &line, &ran)
}

#[test]
fn runs_over_captures_of_three_forms_write_their_files(rt: HostRuntime) -> Result<(), Fail> {
    let alloc = rt.alloc();
    for form in [Form::Micro, Form::Nano, Form::Blocks] {
        for line in RUNS.lines() {
            assert!(rt; leaves(&rt, alloc, form, line, "")?, "{line}");
        }
    }
    Ok(())
}
