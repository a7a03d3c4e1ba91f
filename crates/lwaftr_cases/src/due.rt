// What is due of the run that a line tells, and what a fault leaves of it.
use crate::captures::{Form, capture_of};
use crate::cases::{lines_of, part, word};
use crate::runs::Ran;
use lwaftr_engine::{Status, status_line};
use std::alloc::Global;
use std::test::Fail;

// The places of the parts of a line behind its title: the table, the words behind it (a load's file is the table of that name), the
// records, the lines of VERDICTS, those of VERSIONS behind the first, the summary, the packets that leave, the line of the status, and
// in some lines how many reads there are before the outputs are made.
pub const TABLE: usize = 1;

pub const WORDS: usize = 2;

pub const RECORDS: usize = 3;

const VERDICTS: usize = 4;

const VERSIONS: usize = 5;

const SAID: usize = 6;

const SENT: usize = 7;

const STATUS: usize = 8;

pub const READS: usize = 9;

/// The three files and the summary of a run in which nothing fails.
#[derive(Drop)]
pub struct Due {
    pub packets: Vec<u8>,
    pub verdicts: String,
    versions: String,
    said: String,
    /// VERSIONS of a run that took no record.
    unread: String,
}

/// VERSIONS of a run whose loads have these lines, where no record was taken: what came later is not reached.
fn unread(alloc: Global, lines: &str) -> Result<String, Fail> {
    let mut text = String::from_str(alloc, "0 t0.toml initial\n")?;
    for line in lines.split(", ") {
        match line.rsplit_once(" at ") {
            Some((load, _)) => {
                let (_, name) = load.split_once(' ').ok_or("a name")?;
                text.push_str(&format!(in alloc; "- {name} not-reached\n")?)?;
            }
            None if line != "" => text.push_str(&format!(in alloc; "{line}\n")?)?,
            None => {}
        }
    }
    Ok(text)
}

/// What is due of the run of this line, over a capture of this form.
pub fn due_of(alloc: Global, form: Form, line: &str) -> Result<Due, Fail> {
    let versions = part(line, VERSIONS);
    Ok(Due {
        packets: capture_of(alloc, form, part(line, SENT))?,
        verdicts: lines_of(alloc, "", part(line, VERDICTS))?,
        versions: lines_of(alloc, "0 t0.toml initial\n", versions)?,
        said: lines_of(alloc, "", part(line, SAID))?,
        unread: unread(alloc, versions)?,
    })
}

impl Due {
    /// The three files are whole, and no call of the files failed.
    fn has_files(&self, ran: &Ran) -> bool {
        ran.failed(0, 0)
            && ran.packets() == self.packets.as_slice()
            && ran.files.writing.text("verdicts.txt") == self.verdicts.as_str()
            && ran.files.writing.text("versions.txt") == self.versions.as_str()
    }

    /// All of it is there.
    fn is_whole(&self, ran: &Ran) -> bool {
        self.has_files(ran) && ran.said() == self.said.as_str() && ran.history.is_some()
    }

    /// OUT and VERDICTS hold fronts of it.
    fn has_fronts(&self, ran: &Ran) -> bool {
        self.packets.starts_with(ran.packets())
            && self
                .verdicts
                .starts_with(ran.files.writing.text("verdicts.txt"))
    }

    /// VERSIONS holds what is due of the records that were taken: of none, of a part of them, or of all. VERDICTS holds whole lines, as
    /// many as the summary says that records were taken.
    fn has_records(&self, ran: &Ran) -> bool {
        let versions = ran.files.writing.text("versions.txt");
        let lines = ran.files.writing.text("verdicts.txt");
        let told = word(ran.said(), 1);
        let are_due = match lines {
            "" => versions == self.unread.as_str(),
            _ if lines == self.verdicts.as_str() => versions == self.versions.as_str(),
            _ => self.versions.starts_with(versions) && lines.ends_with('\n'),
        };
        are_due && told.parse().unwrap_or(usize::MAX) == lines.lines().count()
    }

    /// A read failed, and this may be left.
    fn allows_read_fault(&self, ran: &Ran) -> bool {
        let is_left = if ran.said() == "" {
            !ran.has_outputs() && ran.history.is_none()
        } else {
            self.has_fronts(ran) && self.has_records(ran) && ran.history.is_some()
        };
        is_left && ran.failed(1, 0)
    }

    /// A create or an append failed, or this put of 16 bytes of the summary, and this may be left.
    fn allows_write_fault(&self, ran: &Ran, put: Option<usize>) -> bool {
        let is_left = match put {
            None => {
                ran.failed(0, 1)
                    && self.has_fronts(ran)
                    && self
                        .versions
                        .starts_with(ran.files.writing.text("versions.txt"))
                    && ran.said() == ""
            }
            Some(put) => {
                self.has_files(ran)
                    && self.said.starts_with(ran.said())
                    && ran.said().len() == put.wrapping_mul(16)
            }
        };
        is_left && ran.history.is_none()
    }

    /// The run in which at most one call of the files failed, or at most this put, left what it may. It says whether nothing failed.
    pub fn allows(&self, ran: &Ran, put: Option<usize>) -> Option<bool> {
        match ran.status {
            Status::Done | Status::DoneRefused if self.is_whole(ran) => Some(true),
            Status::ReadFault if put.is_none() && self.allows_read_fault(ran) => Some(false),
            Status::WriteFault if self.allows_write_fault(ran, put) => Some(false),
            _ => None,
        }
    }
}

/// The points that lines of VERSIONS name, in their order.
pub fn points(alloc: Global, versions: &str) -> Result<Vec<u32>, Fail> {
    let mut list = Vec::new(alloc);
    for line in versions.lines() {
        if let Some((_, point)) = line.rsplit_once(" at ") {
            list.push(point.parse()?)?;
        }
    }
    Ok(list)
}

/// The history that was handed out has the points that VERSIONS names, and so many records as the summary.
pub fn has_history(alloc: Global, ran: &Ran) -> Result<bool, Fail> {
    let printed = points(alloc, ran.files.writing.text("versions.txt"))?;
    let told = word(ran.said(), 1);
    let records = told.parse::<u32>()?;
    Ok(match &ran.history {
        Some(history) => history.points() == printed.as_slice() && history.records() == records,
        None => false,
    })
}

/// The run of this line, over a capture of this form, left what the line says.
pub fn is_right(alloc: Global, form: Form, line: &str, ran: &Ran) -> Result<bool, Fail> {
    let due = due_of(alloc, form, line)?;
    let status = status_line(alloc, &ran.status)?;
    Ok(
        status.as_str().trim_end_matches('\n') == part(line, STATUS)
            && due.is_whole(ran)
            && has_history(alloc, ran)?,
    )
}
