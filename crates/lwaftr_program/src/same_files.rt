// Whether a job that makes files would make one that it also reads, or one of them twice. Words are told apart by their names alone; here
// the system is asked which file a name is.
use crate::lines::usage_lines;
use aftr_base::{OutOfMemory, Text};
use aftr_text::{Job, JobError, RunJob, read_job};
use std::alloc::Global;
use std::fs;
use std::fs::Metadata;
use std::io::ErrorKind;
use std::os::unix::fs::MetadataExt;
use std::rt::Files;

/// A file or a folder, as the system numbers it.
#[derive(Clone, Copy, PartialEq, Eq)]
struct Inode {
    device: u64,
    number: u64,
}

/// What stands behind a name.
#[derive(Clone, Copy)]
enum Target<'a> {
    /// A regular file.
    File(Inode),
    /// Nothing yet: the folder that a file would be made in, and the last part of the name.
    Missing(Inode, &'a str),
    /// A pipe, a device or a folder, or what the system does not tell.
    Other,
}

/// What a file is to a job.
#[derive(Clone, Copy)]
enum Role {
    /// It is read; the name of its argument.
    Read(&'static str),
    /// It is read as the table of a load, counted from 1.
    Load(usize),
    /// It is made anew; the name of its argument.
    Made(&'static str),
}

/// A file of a job.
#[derive(Clone, Copy)]
struct JobFile<'a> {
    role: Role,
    name: &'a str,
    target: Target<'a>,
}

/// A file that is made, and another one of the job that is the same.
#[derive(Clone, Copy)]
struct SameFile<'a> {
    made: JobFile<'a>,
    other: JobFile<'a>,
}

/// Where a file that the job makes is another file of it: which two words these are, and how the command is written. Nothing is opened.
pub(crate) fn same_file_lines<R: Files>(
    rt: &R,
    alloc: Global,
    words: &[&str],
) -> Result<Option<Text>, OutOfMemory> {
    let job = match read_job(alloc, words) {
        Ok(job) => job,
        Err(JobError::Refused(_)) => return Ok(None),
        Err(JobError::OutOfMemory) => return Err(OutOfMemory),
    };
    match same_file(rt, &job) {
        Some(same) => {
            let line = same_line(alloc, &same)?;
            Ok(Some(usage_lines(alloc, words, line.as_str())?))
        }
        None => Ok(None),
    }
}

fn same_file<'a, R: Files>(rt: &R, job: &'a Job) -> Option<SameFile<'a>> {
    match job {
        Job::Run(run) => same_of_run(rt, run),
        Job::Migrate { input, output } => {
            let table = job_file(rt, Role::Read("TABLE"), input.as_str());
            let new_table = job_file(rt, Role::Made("NEW-TABLE"), output.as_str());
            same_among(&[new_table], table)
        }
        _ => None,
    }
}

// The first two in the order of the outputs and the files that are read, and then of the outputs alone.
fn same_of_run<'a, R: Files>(rt: &R, run: &'a RunJob) -> Option<SameFile<'a>> {
    let out = job_file(rt, Role::Made("OUT"), run.output.as_str());
    let verdicts = job_file(rt, Role::Made("VERDICTS"), run.verdicts.as_str());
    let versions = job_file(rt, Role::Made("VERSIONS"), run.versions.as_str());
    let made = [out, verdicts, versions];
    if let Some(same) = same_as_read(rt, &made, run) {
        return Some(same);
    }
    if let Some(same) = same_among(&[out], verdicts) {
        return Some(same);
    }
    same_among(&[out, verdicts], versions)
}

fn same_as_read<'a, R: Files>(
    rt: &R,
    made: &[JobFile<'a>],
    run: &'a RunJob,
) -> Option<SameFile<'a>> {
    let input = job_file(rt, Role::Read("IN"), run.input.as_str());
    if let Some(same) = same_among(made, input) {
        return Some(same);
    }
    let table = job_file(rt, Role::Read("TABLE"), run.table.as_str());
    if let Some(same) = same_among(made, table) {
        return Some(same);
    }
    let mut number = 0usize;
    'loads: for load in run.loads.as_slice() {
        number = number.saturating_add(1);
        let load = job_file(rt, Role::Load(number), load.name.as_str());
        if let Some(same) = same_among(made, load) {
            return Some(same);
        }
    }
    None
}

fn same_among<'a>(made: &[JobFile<'a>], other: JobFile<'a>) -> Option<SameFile<'a>> {
    'made: for file in made {
        if is_same(file.target, other.target) {
            return Some(SameFile { made: *file, other });
        }
    }
    None
}

fn is_same(one: Target<'_>, other: Target<'_>) -> bool {
    match (one, other) {
        (Target::File(one), Target::File(other)) => one == other,
        (Target::Missing(folder, last), Target::Missing(other_folder, other_last)) => {
            folder == other_folder && last == other_last
        }
        _ => false,
    }
}

fn job_file<'a, R: Files>(rt: &R, role: Role, name: &'a str) -> JobFile<'a> {
    JobFile {
        role,
        name,
        target: target_of(rt, name),
    }
}

fn target_of<'a, R: Files>(rt: &R, name: &'a str) -> Target<'a> {
    match fs::metadata(rt, name) {
        Ok(about) if about.is_file() => Target::File(inode_of(&about)),
        Ok(_) => Target::Other,
        Err(error) if error.kind() == ErrorKind::NotFound => missing_target(rt, name),
        Err(_) => Target::Other,
    }
}

fn missing_target<'a, R: Files>(rt: &R, name: &'a str) -> Target<'a> {
    let (folder, last) = folder_and_last(name);
    match fs::metadata(rt, folder) {
        Ok(about) => Target::Missing(inode_of(&about), last),
        Err(_) => Target::Other,
    }
}

fn folder_and_last<'a>(name: &'a str) -> (&'a str, &'a str) {
    match name.rsplit_once('/') {
        None => (".", name),
        Some((folder, last)) if folder.is_empty() => ("/", last),
        Some((folder, last)) => (folder, last),
    }
}

fn inode_of(about: &Metadata) -> Inode {
    Inode {
        device: about.dev(),
        number: about.ino(),
    }
}

// The two words with what is wrong of them. What a file that is read holds would be lost.
fn same_line(alloc: Global, same: &SameFile<'_>) -> Result<String, OutOfMemory> {
    let mut line = String::new(alloc);
    line.push_str("  ")?;
    push_file(alloc, &mut line, &same.made)?;
    line.push_str(" and ")?;
    push_file(alloc, &mut line, &same.other)?;
    line.push_str(ending(same.other.role))?;
    Ok(line)
}

fn ending(role: Role) -> &'static str {
    match role {
        Role::Made(_) => " are one file\n",
        _ => " are one file, which would be lost\n",
    }
}

// A word with its name between backquotes.
fn push_file(alloc: Global, line: &mut String, file: &JobFile<'_>) -> Result<(), OutOfMemory> {
    match file.role {
        Role::Read(word) => line.push_str(word)?,
        Role::Load(number) => {
            let word = format!(in alloc; "load {number}")?;
            line.push_str(word.as_str())?;
        }
        Role::Made(word) => line.push_str(word)?,
    }
    line.push_str(", `")?;
    line.push_str(file.name)?;
    line.push_str("`,")?;
    Ok(())
}
