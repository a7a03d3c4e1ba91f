// Cases of a test, a line each.
use std::alloc::Global;
use std::test::Fail;

/// The part of a line at this place, apart by `|`; empty where there is none.
pub fn part(line: &str, place: usize) -> &str {
    line.split('|').nth(place).unwrap_or("")
}

/// The word of a text at this place, apart by blanks; empty where there is none.
pub fn word(text: &str, place: usize) -> &str {
    text.split(' ').nth(place).unwrap_or("")
}

/// The words of a line, apart by blanks; `~` is an empty word. An empty line has none.
pub fn words_of<'a>(alloc: Global, line: &'a str) -> Result<Vec<&'a str>, Fail> {
    let mut words = Vec::new(alloc);
    for word in line.split(' ') {
        if word != "" {
            words.push(if word == "~" { "" } else { word })?;
        }
    }
    Ok(words)
}

/// Puts the lines of numbers from one to another, which is left out, behind a text, as `0..3 0 up 1;0 held 0` spells them: line 0 has the
/// first of those ends, line 1 the second, and line 2 the first again. `expired ` may stand in front.
fn put_range(alloc: Global, text: &mut String, head: &str, tail: &str) -> Result<(), Fail> {
    let first = head.strip_prefix("expired ").unwrap_or(head);
    let before = if first == head { "" } else { "expired" };
    let (last, ends) = tail.split_once(' ').unwrap_or((tail, ""));
    let kinds = ends.split(';').count().max(1);
    for number in first.parse::<usize>()?..last.parse::<usize>()? {
        let end = ends.split(';').nth(number % kinds).unwrap_or("");
        let line = format!(in alloc; "{before} {number} {end}")?;
        text.push_str(line.trim())?;
        text.push('\n')?;
    }
    Ok(())
}

/// A text that begins with this line, and has those that are apart by `, ` behind it, each with its end.
pub fn lines_of(alloc: Global, first: &str, lines: &str) -> Result<String, Fail> {
    let mut text = String::from_str(alloc, first)?;
    for line in lines.split(", ") {
        match line.split_once("..") {
            Some((head, tail)) => put_range(alloc, &mut text, head, tail)?,
            None if line != "" => {
                text.push_str(line)?;
                text.push('\n')?;
            }
            None => {}
        }
    }
    Ok(text)
}
