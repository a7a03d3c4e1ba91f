// Numbers and loads, as words write them.
ghost use Rattle.std.specs.Prelude.{◌≡◌, ◌≢◌, ◌↔◌, ℕ, ◌^◌, ◌<◌, ◌≤◌, ◌++◌, List, All, IfOk, IfErr, IfSome, IfNone, IsTrue, codes, decimal, map};
ghost use Rattle.swap_core.specs.Plans.{IsWindow, IsNotBefore};
ghost use Rattle.swap_core.specs.declared.plan.Window.{Window as SpecWindow};
ghost use Rattle.aftr_text.specs.Jobs.{AreRising, IsLoad, IsName, load_text, load_texts, window_text, windows_of};
ghost use Rattle.aftr_text.specs.Parts.{texts};
ghost use Rattle.aftr_text.specs.declared.jobs.LoadWords.{LoadWords as SpecLoad};
ghost use Rattle.aftr_text.specs.Faults.{HasFallen, IsBadLoad};
ghost use Rattle.aftr_text.specs.declared.faults.Fault.{Fault as SpecFault};
ghost use Rattle.aftr_text.specs.declared.faults.Fault.TheVariants as fault;
ghost use Rattle.aftr_text.specs.declared.faults.JobError.TheVariants as error_is;

use crate::faults::{Fault, JobError};
use crate::jobs::{LoadList, LoadWords};
use aftr_base::Text;
use itoa::Buffer;
use std::alloc::Global;
use swap_core::Window;

/// The last number that a window may name.
const MOST_RECORDS: u64 = 1 << 31;

/// The number below 2^64 that a word writes, if it does: `0`, or digits without a leading zero.
pub(crate) fn read_number(word: &str) -> Option<u64>
    ensures some { IfSome result (λ n. (word.now ≡ decimal n) × (n < 2 ^ 64)) }
    ensures none { IfNone result ((n : ℕ) → n < 2 ^ 64 → word.now ≢ decimal n) }
{
    let Ok(number) = word.parse::<u64>() else {
        return None;
    };
    let mut buffer = Buffer::new();
    if buffer.format(number) == word {
        Some(number)
    } else {
        None
    }
}

/// The number that a word writes, if it writes one from `least` to `most`.
pub(crate) fn read_between(word: &str, least: u64, most: u64) -> Option<u64>
    ensures some { IfSome result (λ n. (word.now ≡ decimal n) × (least ≤ n) × (n ≤ most)) }
    ensures none { IfNone result ((n : ℕ) → least ≤ n → n ≤ most → word.now ≢ decimal n) }
{
    let number = read_number(word)?;
    if number < least || most < number {
        None
    } else {
        Some(number)
    }
}

/// A name of a file has a byte.
pub(crate) fn is_name(word: &str) -> bool
    ensures { IsTrue result ↔ IsName word.now }
{
    !word.is_empty()
}

/// The window that a word writes as `EARLIEST-LATEST`.
pub(crate) fn read_window(word: &str) -> Option<Window>
    ensures some { IfSome result (λ w. (word.now ≡ window_text w) × IsWindow w) }
    ensures none { IfNone result ((w : SpecWindow) → IsWindow w → word.now ≢ window_text w) }
{
    let (first, last) = word.split_once('-')?;
    let earliest = read_between(first, 0, MOST_RECORDS)?;
    let latest = read_between(last, earliest, MOST_RECORDS)?;
    Some(Window {
        earliest: earliest as u32,
        latest: latest as u32,
    })
}

/// The window and the name of a load, which a word writes as `EARLIEST-LATEST:NAME`. The name may have a colon.
pub(crate) fn read_load(word: &str) -> Option<(Window, &str)>
    ensures some { IfSome result (λ load. (word.now ≡ window_text load.0 ++ (codes ":" ++ load.1.now)) × IsWindow load.0 × IsName load.1.now) }
    ensures none { IfNone result ((load : SpecLoad) → IsLoad load → word.now ≢ load_text load) }
{
    let (range, name) = word.split_once(':')?;
    let window = read_window(range)?;
    if is_name(name) {
        Some((window, name))
    } else {
        None
    }
}

/// The loads that the words write, one each. Refused where a word writes none.
pub(crate) fn read_loads(alloc: Global, words: &[&str]) -> Result<LoadList, JobError>
    ensures loads { IfOk result (λ loads. (load_texts loads ≡ texts words.now) × All IsLoad loads) }
    ensures usage { IfErr result (λ e. e ≢ error_is.OutOfMemory → (loads : List SpecLoad) → All IsLoad loads → load_texts loads ≢ texts words.now) }
    ensures cause { IfErr result (λ e. e ≢ error_is.OutOfMemory → (at : ℕ) × (e ≡ error_is.Refused (fault.Load at)) × IsBadLoad (texts words.now) at) }
{
    let mut loads = Vec::with_capacity(alloc, words.len())?;
    'words: for at in 0..words.len() {
        let Some((window, name)) = read_load(words[at]) else {
            return Err(JobError::Refused(Fault::Load(at)));
        };
        let name = Text::copy(alloc, name)?;
        loads.push(LoadWords { window, name })?;
    }
    Ok(LoadList::of(loads))
}

/// The first load whose window begins or ends earlier than the one before it, if there is one.
pub(crate) fn first_fall(loads: &[LoadWords]) -> Option<usize>
    ensures some { IfSome result (λ at. HasFallen loads.now at) }
    ensures falls { IfSome result (λ _. AreRising (windows_of loads.now) → ⊥) }
    ensures none { IfNone result (AreRising (windows_of loads.now)) }
{
    'loads: for next in 1..loads.len() {
        if !is_not_before(loads[next].window, loads[next - 1].window) {
            return Some(next);
        }
    }
    None
}

fn is_not_before(next: Window, before: Window) -> bool
    ensures { IsTrue result ↔ IsNotBefore next before }
{
    before.earliest <= next.earliest && before.latest <= next.latest
}
