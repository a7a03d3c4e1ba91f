// The parts of a TOML text: comments, quoted texts, and what stands outside of them.
ghost use Rattle.std.specs.Prelude.{◌≡◌};
ghost use Rattle.table_costs.specs.Costs.{begun, part_after, line_after, lines_after, seen_as};

/// Where a byte of a TOML text stands. A number is the mark of a quoted text: `"` or `'`.
#[derive(Clone, Copy, Debug, PartialEq, Eq)]
pub enum Part {
    /// Outside of comments and quoted texts.
    Plain,
    Comment,
    /// Right behind the first mark of a quoted text.
    Opened(u8),
    /// In a text of one line.
    Line(u8),
    /// Behind a backslash in a text of one line between quotation marks.
    Escaped,
    /// Right behind two marks: a text that has nothing, or the begin of one of several lines.
    Twice(u8),
    /// In a text of several lines.
    Lines(u8),
    /// Behind one mark in such a text.
    LinesOnce(u8),
    /// Behind two marks in such a text.
    LinesTwice(u8),
    /// Behind a backslash in such a text.
    LinesEscaped,
    /// Behind three marks, which end such a text; one or two more still belong to it.
    Ended(u8),
    EndedOnce(u8),
}

fn begun(byte: u8) -> Part
    ensures { result ≡ begun byte }
{
    match byte {
        b'#' => Part::Comment,
        b'"' | b'\'' => Part::Opened(byte),
        _ => Part::Plain,
    }
}

/// The part in which the byte behind this one stands.
pub fn part_after(part: Part, byte: u8) -> Part
    ensures { result ≡ part_after part byte }
{
    match part {
        Part::Plain => begun(byte),
        Part::Comment if byte == b'\n' => Part::Plain,
        Part::Comment => Part::Comment,
        Part::Opened(mark) if byte == mark => Part::Twice(mark),
        Part::Opened(mark) | Part::Line(mark) => line_after(mark, byte),
        Part::Escaped => Part::Line(b'"'),
        Part::Twice(mark) if byte == mark => Part::Lines(mark),
        Part::Twice(_) => begun(byte),
        Part::Lines(mark) if byte == mark => Part::LinesOnce(mark),
        Part::LinesOnce(mark) if byte == mark => Part::LinesTwice(mark),
        Part::LinesTwice(mark) if byte == mark => Part::Ended(mark),
        Part::Lines(mark) | Part::LinesOnce(mark) | Part::LinesTwice(mark) => {
            lines_after(mark, byte)
        }
        Part::LinesEscaped => Part::Lines(b'"'),
        Part::Ended(mark) if byte == mark => Part::EndedOnce(mark),
        Part::EndedOnce(mark) if byte == mark => Part::Plain,
        Part::Ended(_) | Part::EndedOnce(_) => begun(byte),
    }
}

// Behind a byte in a text of one line between two of this mark.
fn line_after(mark: u8, byte: u8) -> Part
    ensures { result ≡ line_after mark byte }
{
    if byte == mark || byte == b'\n' {
        Part::Plain
    } else if byte == b'\\' && mark == b'"' {
        Part::Escaped
    } else {
        Part::Line(mark)
    }
}

// Behind another byte than its mark in a text of several lines.
fn lines_after(mark: u8, byte: u8) -> Part
    ensures { result ≡ lines_after mark byte }
{
    if byte == b'\\' && mark == b'"' {
        Part::LinesEscaped
    } else {
        Part::Lines(mark)
    }
}

/// A byte as it counts: those of a comment as `#`, those of a quoted text as `"`, any other as it stands.
pub fn seen_as(part: Part, byte: u8) -> u8
    ensures { result ≡ seen_as part byte }
{
    match part {
        Part::Twice(mark) | Part::Ended(mark) | Part::EndedOnce(mark) if byte == mark => b'"',
        Part::Plain | Part::Twice(_) | Part::Ended(_) | Part::EndedOnce(_) => byte,
        Part::Comment => b'#',
        Part::Opened(_)
        | Part::Line(_)
        | Part::Escaped
        | Part::Lines(_)
        | Part::LinesOnce(_)
        | Part::LinesTwice(_)
        | Part::LinesEscaped => b'"',
    }
}
