// A round in one pass: each record is judged, and its packets and its line are written at once.
ghost use Rattle.std.specs.Prelude.{◌≡◌, IfOk, length};
ghost use Rattle.worker_gate.specs.Judging.{HasRead};
ghost use Rattle.run_output.specs.Counting.{IsWithin};
ghost use Rattle.run_output.specs.Limiting.{rate_of};
ghost use Rattle.run_output.specs.Passing.{HasBegunPass, HasPassed};

use crate::limits::is_limited;
use crate::parts::Part;
use crate::rendering::render_record;
use crate::rounds::DrawnRound;
use aftr_base::OutOfMemory;
use aftr_text::RecordNumber;
use error_limit::{Limiter, one_marking};
use ip_codec::ItemView;
use item_stage::RoundItems;
use verdict_core::Verdict;
use worker_gate::{Gate, Judge, Outcome};

/// Judges the records of a round, which were drawn under the version that the judge holds, and writes at once what each of them writes. No
/// list of outcomes is kept. The limit is asked about the errors in the order of the records. What is written takes the place of what stood
/// in `part`. After an error some records were not judged, and what stands in `part` and what the limit was asked is not known.
pub fn judge_and_render<G: Gate>(
    judge: &mut Judge<'_>,
    gate: &G,
    round: &DrawnRound<'_>,
    limit: &mut Option<Limiter>,
    part: &mut Part,
) -> Result<(), OutOfMemory>
    ensures passed { IfOk result (λ _. HasPassed round.now judge.old judge.new limit.old limit.new part.new) }
    ensures within { IfOk result (λ _. IsWithin part.new.counted (length round.now.records.now)) }
    ensures rate { rate_of limit.new ≡ rate_of limit.old }
    ensures read { HasRead judge.old judge.new }
{
    one_marking();
    pass_records(judge, gate, round, limit, part)?;
    Ok(())
}

// Judges and writes all records.
fn pass_records<G: Gate>(
    judge: &mut Judge<'_>,
    gate: &G,
    round: &DrawnRound<'_>,
    limit: &mut Option<Limiter>,
    part: &mut Part,
) -> Result<(), OutOfMemory>
    ensures begun { IfOk result (λ _. HasBegunPass round.now (length round.now.records.now) judge.old judge.new limit.old limit.new part.new) }
    ensures rate { rate_of limit.new ≡ rate_of limit.old }
    ensures read { HasRead judge.old judge.new }
{
    part.clear();
    part.reserve(round.records.len())?;
    let mut item = ItemView::Held;
    let mut outcome = Outcome {
        number: round.start,
        version: judge.version(),
        verdict: Verdict::Held,
    };
    let mut number = RecordNumber::of(round.start);
    let mut i = 0;
    'records: while i < round.records.len() {
        let at = number.get();
        gate.pass(at, judge.version());
        round.items.item_into(i, &mut item);
        judge.judge(at, &item, &mut outcome);
        let record = round.records.get(i);
        let limited = is_limited(limit, round.form, &record, &outcome.verdict);
        render_record(round, i, &number, &record, &outcome, limited, part)?;
        number.rise();
        i += 1;
    }
    Ok(())
}
