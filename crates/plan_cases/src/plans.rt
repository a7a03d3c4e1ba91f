// The tables of a run, by the texts of its table files.
ghost use Rattle.std.specs.Prelude.{◌≡◌, ◌↔◌, IfOk, IsTrue};
ghost use Rattle.swap_core.specs.Plans.{IsNotBefore, IsWindow};
ghost use Rattle.table_words.specs.Layout.{AreCompiled};
ghost use Rattle.reload_plan.specs.Accepted.{IsSound};

use aftr_base::WordList;
use binding_file::{FileError, LoadText, read_table};
use case_data::{PORT_SET_TABLE, WHOLE_TABLE};
use reload_plan::{Load, Loaded, Made, Slot, plan};
use std::alloc::Global;
use std::test::Fail;
use swap_core::Window;
use table_words::compile;

/// A table without bindings.
pub const EMPTY_TABLE: &str = "version = 1
[softwire]
aftr = \"2001:db8::1\"
own = \"192.0.2.1\"
";

/// The words of the table that this text spells.
pub fn words_of(alloc: Global, text: &str) -> Result<WordList, Fail>
    ensures { IfOk result (λ words. AreCompiled words) }
{
    let table = read_table(alloc, text.as_bytes())?;
    let words = compile(alloc, &table)?;
    Ok(words)
}

/// A load of a file with this text.
fn load_of(alloc: Global, window: Window, text: &str) -> Result<Load, Fail>
    ensures window { IfOk result (λ load. load.window ≡ window) }
    ensures words { IfOk result (λ load. IsSound load.loaded) }
{
    let loaded = match read_table(alloc, text.as_bytes()) {
        Ok(table) => Loaded::Words(compile(alloc, &table)?),
        Err(FileError::Refused(cause)) => Loaded::Refused(cause),
        Err(FileError::OutOfMemory) => return Err(Fail::from("out of memory")),
    };
    Ok(Load { window, loaded })
}

fn may_follow(next: Window, before: Window) -> bool
    ensures { IsTrue result ↔ (IsWindow next × IsNotBefore next before) }
{
    next.earliest <= next.latest
        && next.latest <= 1 << 31
        && before.earliest <= next.earliest
        && before.latest <= next.latest
}

/// The plan of a run: the text of its first table file, and of each load the window, `earliest` and `latest`, and the text.
fn planned(alloc: Global, first: &str, loads: &[(u32, u32, &str)]) -> Result<Made, Fail> {
    let first = words_of(alloc, first)?;
    let mut list = Vec::new(alloc);
    let mut before = Window {
        earliest: 0,
        latest: 0,
    };
    'loads: for at in 0..loads.len() {
        let (earliest, latest, text) = loads[at];
        let window = Window { earliest, latest };
        if at >= 255 {
            return Err(Fail::from("too many loads"));
        }
        if !may_follow(window, before) {
            return Err(Fail::from("no window of a run"));
        }
        let load = load_of(alloc, window, text)?;
        list.push(load)?;
        before = window;
    }
    Ok(plan(alloc, first, list)?)
}

/// What became of the loads, in order: a table by its version and its window, a refused one by its cause.
fn outcomes(alloc: Global, made: &Made) -> Result<String, Fail> {
    let mut text = String::new(alloc);
    for slot in made.slots.as_slice() {
        match *slot {
            Slot::Version(version) => {
                if version == 0 || version >= made.plan.len() {
                    return Err(Fail::from("no version of the plan"));
                }
                let Window { earliest, latest } = made.plan.window(version);
                text.push_str(format!(in alloc; "{version} at {earliest}-{latest}\n")?.as_str())?;
            }
            Slot::Refused(cause) => {
                let cause = LoadText(cause);
                text.push_str(format!(in alloc; "refused {cause}\n")?.as_str())?;
            }
        }
    }
    Ok(text)
}

/// Whether the plan has just the tables of these files, in order.
fn has_tables(alloc: Global, made: &Made, texts: &[&str]) -> Result<bool, Fail> {
    let mut right = made.plan.len() as usize == texts.len();
    for (version, text) in texts.iter().enumerate() {
        let words = words_of(alloc, text)?;
        right &= version < made.plan.len() as usize
            && made.plan.words(version as u32) == words.as_slice();
    }
    Ok(right)
}

#[test]
fn a_run_without_loads_has_one_table(rt: HostRuntime) -> Result<(), Fail> {
    let alloc = rt.alloc();
    let made = planned(alloc, WHOLE_TABLE, &[])?;
    assert_eq!(rt; outcomes(alloc, &made)?.as_str(), "");
    assert!(rt; has_tables(alloc, &made, &[WHOLE_TABLE])?);
    Ok(())
}

#[test]
fn each_load_has_its_window(rt: HostRuntime) -> Result<(), Fail> {
    let alloc = rt.alloc();
    let loads = [
        (0, 0, PORT_SET_TABLE),
        (1, 5, WHOLE_TABLE),
        (2, 2_147_483_648, EMPTY_TABLE),
    ];
    let made = planned(alloc, WHOLE_TABLE, &loads)?;
    assert_eq!(rt;
        outcomes(alloc, &made)?.as_str(),
        "1 at 0-0\n2 at 1-5\n3 at 2-2147483648\n"
    );
    let tables = [WHOLE_TABLE, PORT_SET_TABLE, WHOLE_TABLE, EMPTY_TABLE];
    assert!(rt; has_tables(alloc, &made, &tables)?);
    Ok(())
}

#[test]
fn refused_loads_take_no_version(rt: HostRuntime) -> Result<(), Fail> {
    let alloc = rt.alloc();
    let loads = [
        (1, 1, PORT_SET_TABLE),
        (2, 2, "="),
        (2, 2, EMPTY_TABLE),
        (9, 9, "="),
        (9, 9, WHOLE_TABLE),
    ];
    let made = planned(alloc, WHOLE_TABLE, &loads)?;
    assert_eq!(rt;
        outcomes(alloc, &made)?.as_str(),
        "1 at 1-1\nrefused not-toml\n2 at 2-2\nrefused not-toml\n3 at 9-9\n"
    );
    let tables = [WHOLE_TABLE, PORT_SET_TABLE, EMPTY_TABLE, WHOLE_TABLE];
    assert!(rt; has_tables(alloc, &made, &tables)?);
    Ok(())
}

/// Bindings of 203.0.113.1 with an offset of 6 and identifiers of 6 bits: these identifiers, one after another.
fn bindings_of(alloc: Global, psids: &[u8]) -> Result<String, Fail> {
    let mut text = String::from_str(alloc, EMPTY_TABLE)?;
    for &psid in psids {
        text.push_str(format!(in alloc;
            "[[binding]]\nb4 = \"2001:db8:1::{psid:x}\"\nipv4 = \"203.0.113.1\"\noffset = 6\nlength = 6\npsid = {psid}\n"
        )?.as_str())?;
    }
    Ok(text)
}

#[test]
fn a_load_with_an_identifier_twice_is_refused(rt: HostRuntime) -> Result<(), Fail> {
    let alloc = rt.alloc();
    let mut psids = Vec::new(alloc);
    for psid in 0..64 {
        psids.push(psid)?;
    }
    let all = bindings_of(alloc, &psids)?;
    psids.push(0)?;
    let twice = bindings_of(alloc, &psids)?;
    let loads = [(3, 3, twice.as_str()), (4, 4, all.as_str())];
    let made = planned(alloc, all.as_str(), &loads)?;
    assert_eq!(rt;
        outcomes(alloc, &made)?.as_str(),
        "refused twice 0 64\n1 at 4-4\n"
    );
    assert!(rt; has_tables(alloc, &made, &[all.as_str(), all.as_str()])?);
    Ok(())
}

#[test]
fn the_last_of_255_loads_is_version_1_behind_254_refused_ones(rt: HostRuntime) -> Result<(), Fail> {
    let alloc = rt.alloc();
    let mut loads = Vec::new(alloc);
    for at in 0..254 {
        loads.push((at, 2_147_483_648, "="))?;
    }
    loads.push((254, 2_147_483_648, EMPTY_TABLE))?;
    let made = planned(alloc, WHOLE_TABLE, &loads)?;
    let told = outcomes(alloc, &made)?;
    assert_eq!(rt; told.as_str().lines().count(), 255);
    assert_eq!(rt; told.as_str().lines().last(), Some("1 at 254-2147483648"));
    assert!(rt; has_tables(alloc, &made, &[WHOLE_TABLE, EMPTY_TABLE])?);
    Ok(())
}
