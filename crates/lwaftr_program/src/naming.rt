// The files of a job, by the names of its words.
use aftr_base::OutOfMemory;
use aftr_text::Job;

/// A line with what a file is and its name.
pub(crate) fn push_named(text: &mut String, what: &str, name: &str) -> Result<(), OutOfMemory> {
    text.push_str("  ")?;
    text.push_str(what)?;
    text.push_str(" ")?;
    text.push_str(name)?;
    text.push_str("\n")?;
    Ok(())
}

/// So many characters of a word of a file are shown.
const MOST_SHOWN: usize = 64;

/// A word of a file between backquotes: its first characters, with `?` for each that would steer a terminal.
pub(crate) fn push_shown(text: &mut String, word: &str) -> Result<(), OutOfMemory> {
    let mut shown = 0usize;
    text.push_str("`")?;
    'characters: for character in word.chars() {
        if shown == MOST_SHOWN {
            text.push_str("`..")?;
            return Ok(());
        }
        text.push(shown_as(character))?;
        shown = shown.saturating_add(1);
    }
    text.push_str("`")?;
    Ok(())
}

fn shown_as(character: char) -> char {
    if character.is_control() {
        '?'
    } else {
        character
    }
}

/// The table file that a job reads first.
pub(crate) fn table_name(job: &Job) -> Option<&str> {
    match job {
        Job::Run(run) => Some(run.table.as_str()),
        Job::Check { name } => Some(name.as_str()),
        Job::Who { name, .. } => Some(name.as_str()),
        Job::Migrate { input, .. } => Some(input.as_str()),
        Job::Demo { .. } => None,
    }
}

/// The capture that a run reads.
pub(crate) fn capture_name(job: &Job) -> Option<&str> {
    match job {
        Job::Run(run) => Some(run.input.as_str()),
        _ => None,
    }
}
