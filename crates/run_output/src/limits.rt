// The limit on errors, asked record by record.
ghost use Rattle.std.specs.Prelude.{◌≡◌, ◌≤◌, ◌++◌, IfOk, IfSome, IsTrue, Bool, List, ℕ, [], ◌∷◌, length, false, not, replicate, true};
ghost use Rattle.capture_io.specs.declared.forms.Form.{Form as CaptureForm};
ghost use Rattle.capture_io.specs.Record.{nanoseconds};
ghost use Rattle.run_output.specs.Cells.{HasMarked};
ghost use Rattle.run_output.specs.Limiting.{HasAsked, WasAsked, rate_of, tells};
ghost use Rattle.run_output.specs.Outputs.{Course};

use aftr_base::OutOfMemory;
use capture_io::{Form, RecordView, Records, time_of};
use error_limit::Limiter;
use verdict_core::{Reply, Verdict};
use worker_gate::Outcomes;

/// The limit of a run, by how many errors it lets through in a second and at once, from 1 to 1,000,000; none without it. It has
/// not been asked yet.
pub fn new_limit(errors: Option<u32>) -> Option<Limiter>
    requires { IfSome errors (λ rate. (1 ≤ rate) × (rate ≤ 1000000)) }
    ensures rate { rate_of result ≡ errors }
    ensures asked { (form : CaptureForm) (c : Course) → HasAsked form [] [] c result }
{
    match errors {
        Some(rate) => Some(Limiter::new(rate)),
        None => None,
    }
}

/// Asks the limit about each error of a round's records, in their order, and marks the records whose error is kept back.
pub(crate) fn mark_limited(
    form: Form,
    records: &Records,
    outcomes: &Outcomes<'_>,
    limit: &mut Option<Limiter>,
    limited: &mut Vec<bool>,
) -> Result<(), OutOfMemory>
    requires same { length outcomes.now ≡ length records.now }
    ensures marked { IfOk result (λ _. HasMarked form records.now outcomes.now (length outcomes.now) limit.old limit.new limited.new.items) }
    ensures count { IfOk result (λ _. length limited.new.items ≡ length outcomes.now) }
    ensures rate { rate_of limit.new ≡ rate_of limit.old }
{
    if limit.is_none() {
        mark_none(outcomes.len(), limited)?;
        return Ok(());
    }
    limited.clear();
    let mut i = 0;
    'records: while i < outcomes.len() {
        let record = records.get(i);
        let time = time_of(form, record.seconds, record.fraction);
        limited.push(is_kept_back(limit, outcomes.get(i).verdict, time))?;
        i += 1;
    }
    Ok(())
}

// Marks none of so many records, since without a limit no error is kept back.
fn mark_none(count: usize, limited: &mut Vec<bool>) -> Result<(), OutOfMemory>
    ensures { IfOk result (λ _. limited.new.items ≡ replicate count false) }
{
    limited.clear();
    limited.resize(count, false)?;
    Ok(())
}

// Whether a record's error is kept back; what is no error is not.
fn is_kept_back(limit: &mut Option<Limiter>, verdict: Verdict, time: u64) -> bool
    ensures error { tells verdict ≡ true → (times : List ℕ) (sent : List Bool) → WasAsked limit.old times sent →
        WasAsked limit.new (times ++ time ∷ []) (sent ++ not result ∷ []) }
    ensures same { tells verdict ≡ false → limit.new ≡ limit.old }
    ensures none { tells verdict ≡ false → result ≡ false }
    ensures rate { rate_of limit.new ≡ rate_of limit.old }
{
    if !is_error(verdict) {
        return false;
    }
    match limit {
        Some(limiter) => !limiter.pass(time),
        None => false,
    }
}

/// Asks the limit about the error of a record, if there is a limit and the record has an error. Whether the error is kept back.
pub(crate) fn is_limited(
    limit: &mut Option<Limiter>,
    form: Form,
    rec: &RecordView<'_>,
    verdict: &Verdict,
) -> bool
    ensures error { tells verdict.now ≡ true → (times : List ℕ) (sent : List Bool) → WasAsked limit.old times sent →
        WasAsked limit.new (times ++ nanoseconds form rec.now.seconds rec.now.fraction ∷ []) (sent ++ not result ∷ []) }
    ensures same { tells verdict.now ≡ false → limit.new ≡ limit.old }
    ensures none { tells verdict.now ≡ false → result ≡ false }
    ensures rate { rate_of limit.new ≡ rate_of limit.old }
{
    match limit {
        None => false,
        Some(_) => is_kept_back(limit, *verdict, time_of(form, rec.seconds, rec.fraction)),
    }
}

// An error goes to the sender of the packet.
fn is_error(verdict: Verdict) -> bool
    ensures { result ≡ tells verdict }
{
    match verdict {
        Verdict::Drop { reply, .. } => !matches!(reply, Reply::Silent),
        Verdict::Held => false,
        Verdict::Inward { .. } => false,
        Verdict::Outward { .. } => false,
    }
}
