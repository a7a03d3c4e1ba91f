// Files of loads, turned into loads side by side.
use crate::plans::{EMPTY_TABLE, words_of};
use aftr_base::Bytes;
use binding_file::{FileError, read_table};
use case_data::{PORT_SET_TABLE, WHOLE_TABLE};
use load_files::{LoadFile, loads_of};
use reload_plan::{Load, Loaded};
use std::alloc::Global;
use std::test::Fail;
use std::thread::Threads;
use swap_core::Window;

/// The texts of five files, two of which are no tables.
const TEXTS: [&str; 5] = [
    WHOLE_TABLE,
    "=",
    PORT_SET_TABLE,
    "version = 3\n",
    EMPTY_TABLE,
];

/// The load of the file at this place is what its text alone comes to.
fn is_due(alloc: Global, at: usize, load: &Load) -> Result<bool, Fail> {
    let text = TEXTS[at % 5];
    let right = match &load.loaded {
        Loaded::Words(words) => words.as_slice() == words_of(alloc, text)?.as_slice(),
        Loaded::Refused(cause) => match read_table(alloc, text.as_bytes()) {
            Err(FileError::Refused(refusal)) => refusal == *cause,
            _ => false,
        },
    };
    Ok(right && load.window.earliest as usize == at)
}

/// Whether so many of those files become loads in their order.
fn are_due<R: Threads>(rt: &R, alloc: Global, count: u32) -> Result<bool, Fail> {
    let mut files = Vec::new(alloc);
    for at in 0..count {
        let window = Window {
            earliest: at,
            latest: 100,
        };
        let text = Bytes::copy(alloc, TEXTS[at as usize % 5].as_bytes())?;
        files.push(LoadFile { window, text })?;
    }
    let loads = loads_of(rt, alloc, files)?;
    let mut right = loads.len() == count as usize;
    for (at, load) in loads.iter().enumerate() {
        right &= is_due(alloc, at, load)?;
    }
    Ok(right)
}

#[test]
fn files_become_loads_in_their_order(rt: HostRuntime) -> Result<(), Fail> {
    for count in [0, 1, 2, 5, 16] {
        assert!(rt; are_due(&rt, rt.alloc(), count)?, "{count}");
    }
    Ok(())
}
