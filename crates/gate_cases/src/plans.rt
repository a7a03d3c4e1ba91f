// Plans of tables.
ghost use Rattle.std.specs.Prelude.{◌≡◌, ◌≤◌, All, IfOk, replicate};
ghost use Rattle.swap_core.specs.Plans.{IsTableSize};
ghost use Rattle.table_words.specs.Layout.{AreCompiled};

use aftr_base::{OutOfMemory, WordList};
use binding_rules::{Binding, Edition, TableError, table_of};
use case_data::{SETTINGS, SHARED, SUBSCRIBER};
use std::alloc::Global;
use swap_core::{Plan, Window};
use table_words::compile;

/// The words of a table in which the subscriber owns the ports of this identifier.
pub fn words_of(alloc: Global, psid: u16) -> Result<WordList, TableError>
    ensures compiled { IfOk result (λ words. AreCompiled words) }
    ensures size { IfOk result (λ words. IsTableSize words) }
{
    let mut bindings = Vec::new(alloc);
    let binding = Binding {
        b4: SUBSCRIBER,
        v4: SHARED,
        offset: 6,
        length: 8,
        psid,
    };
    if bindings.push(binding).is_err() {
        return Err(TableError::OutOfMemory);
    }
    let table = table_of(alloc, Edition::One, SETTINGS, bindings)?;
    let Ok(words) = compile(alloc, &table) else {
        return Err(TableError::OutOfMemory);
    };
    let size = words.as_slice().len();
    if size == 0 || size > 1 << 24 {
        return Err(TableError::OutOfMemory);
    }
    Ok(words)
}

/// A plan of two tables: the subscriber owns port 1232 in the first alone. The second comes in this window.
pub fn two_tables(alloc: Global, window: Window) -> Result<Plan, TableError>
    requires { (window.earliest ≤ window.latest) × (window.latest ≤ 2147483648) }
    ensures { IfOk result (λ plan. All AreCompiled plan.tables) }
{
    let with = words_of(alloc, 52)?;
    let without = words_of(alloc, 53)?;
    let Ok(mut plan) = Plan::of(alloc, with) else {
        return Err(TableError::OutOfMemory);
    };
    if plan.add(window, without).is_err() {
        return Err(TableError::OutOfMemory);
    }
    Ok(plan)
}

const FROM_THE_SECOND: Window = Window {
    earliest: 1,
    latest: 9,
};

/// A plan of four tables, of which the later three come with records 1 to 9.
pub fn four_tables(alloc: Global) -> Result<Plan, TableError>
    ensures { IfOk result (λ plan. All AreCompiled plan.tables) }
{
    let first = words_of(alloc, 52)?;
    let second = words_of(alloc, 53)?;
    let third = words_of(alloc, 52)?;
    let fourth = words_of(alloc, 53)?;
    let Ok(mut plan) = Plan::of(alloc, first) else {
        return Err(TableError::OutOfMemory);
    };
    if plan.add(FROM_THE_SECOND, second).is_err() {
        return Err(TableError::OutOfMemory);
    }
    if plan.add(FROM_THE_SECOND, third).is_err() {
        return Err(TableError::OutOfMemory);
    }
    if plan.add(FROM_THE_SECOND, fourth).is_err() {
        return Err(TableError::OutOfMemory);
    }
    Ok(plan)
}

const FROM_10: Window = Window {
    earliest: 10,
    latest: 1_000_000,
};

const FROM_8_192: Window = Window {
    earliest: 8_192,
    latest: 1_000_000,
};

/// A plan of three tables, of which the later two may come from records 10 and 8,192 on.
pub fn three_tables(alloc: Global) -> Result<Plan, TableError>
    ensures { IfOk result (λ plan. All AreCompiled plan.tables) }
{
    let first = words_of(alloc, 52)?;
    let second = words_of(alloc, 53)?;
    let third = words_of(alloc, 52)?;
    let Ok(mut plan) = Plan::of(alloc, first) else {
        return Err(TableError::OutOfMemory);
    };
    if plan.add(FROM_10, second).is_err() {
        return Err(TableError::OutOfMemory);
    }
    if plan.add(FROM_8_192, third).is_err() {
        return Err(TableError::OutOfMemory);
    }
    Ok(plan)
}

/// A plan of three tables, of which the later two may come from record 10 on. The subscriber owns port 1232 in the first and the third.
pub fn three_from_10(alloc: Global) -> Result<Plan, TableError>
    ensures { IfOk result (λ plan. All AreCompiled plan.tables) }
{
    let first = words_of(alloc, 52)?;
    let second = words_of(alloc, 53)?;
    let third = words_of(alloc, 52)?;
    let Ok(mut plan) = Plan::of(alloc, first) else {
        return Err(TableError::OutOfMemory);
    };
    if plan.add(FROM_10, second).is_err() {
        return Err(TableError::OutOfMemory);
    }
    if plan.add(FROM_10, third).is_err() {
        return Err(TableError::OutOfMemory);
    }
    Ok(plan)
}

/// The second table comes behind so many records.
pub fn behind(first: u32) -> Window
    ensures { (result.earliest ≡ first) × (result.latest ≡ first) }
{
    Window {
        earliest: first,
        latest: first,
    }
}

/// A table of so many words, each of them the same.
pub fn table(alloc: Global, count: usize, word: u64) -> Result<WordList, OutOfMemory>
    ensures { IfOk result (λ words. words ≡ replicate count word) }
{
    let mut list = Vec::new(alloc);
    list.resize(count, word)?;
    Ok(WordList::of(list))
}
