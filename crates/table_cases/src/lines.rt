// The lines that the refusals of files are about.
use crate::files::spelled;
use aftr_base::OutOfMemory;
use binding_file::{FileError, FileRefused, read_table};
use std::alloc::Global;
use std::test::Fail;
use table_hints::{Lines, line_of};

// A line has a file, its refusal and its lines. `|` ends a line of the file.
const FILES: &str = "= ~ not-toml ~ line 1
version = 1|= 2 ~ not-toml ~ line 2
version = 1|version = 1 ~ not-toml ~ line 2
version = 1||# a comment|version = 1| ~ not-toml ~ line 4
version = 1|a = [1,|2,|3|b = 1 ~ not-toml ~ lines 2 to 5
version = 1|a = [1,|2,|=]|b = 1 ~ not-toml ~ lines 2 to 4
version = 1|a = [1,|\"]\", # ]|']'|b = 1 ~ not-toml ~ lines 2 to 5
version = 1|a = {b = 1,|c = }|d = 1 ~ not-toml ~ lines 2 to 3
version = 1|a = \"\"\"|b = 1|c = 2 ~ not-toml ~ lines 2 to 4
version = 1|a = '''|b = 1'''''''|c = 2 ~ not-toml ~ lines 2 to 3
version = 1|a = '''|b = 1|'''|c = ~ not-toml ~ line 5
version = 1|a = \"b ~ not-toml ~ line 2
version = 1|a = \"b|c = 2 ~ not-toml ~ line 2
a = [|1]|[a.b]|c = 1 ~ not-toml ~ line 3
[a]|b = 1|[a]|c = 1 ~ not-toml ~ line 3
a = 1|b = [|1, 2]|a = [|3, 4] ~ not-toml ~ line 4
||# nothing||[1, 2] ~ not-toml ~ line 5
\u{feff}|# nothing|[1, 2] ~ not-toml ~ line 3
\u{feff}version = 1|version = 1 ~ not-toml ~ line 2
# a|b4,ipv4,offset,length,psid ~ not-toml ~ line 2
version = 2 ~ missing softwire ~ none
version = 1|x = 1 ~ unknown-key ~ none
S[[binding]] ~ missing binding 0 b4 ~ line 5
S|[[binding]]|b4 = 1|[[binding]] ~ kind binding 0 b4 ~ line 6
S[[binding]]|b4 = \"::2\"|ipv4 = \"1.2.3.5\"|  [[ binding\t]]  # 2|ipv4 = \"1.2.3.6\" ~ missing binding 1 b4 ~ line 8
S[[binding]]|b4 = \"::2\"|ipv4 = \"1.2.3.5\"|# [[binding]]|[[binding]]|b4 = \"x\" ~ address binding 1 b4 ~ line 9
S[[binding]] # [[binding]]|b4 = \"::2\"|ipv4 = \"1.2.3.5\"||[[binding]]|b4 = \"::3\"|ipv4 = \"1.2.3.5\" ~ rules twice 0 1 ~ lines 5, 9
S[[binding]]|b4 = \"::2\"|ipv4 = \"1.2.3.5\"|length = 9|offset = 8 ~ rules shape 0 ~ line 5
S[[binding]]|b4 = \"::2\"|ipv4 = \"1.2.3.5\"|length = 2|psid = 4 ~ rules psid 0 ~ line 5
S[[binding]]|b4 = \"::2\"|ipv4 = \"1.2.3.5\"|[[binding]]|b4 = \"::3\"|ipv4 = \"1.2.3.4\" ~ rules own-address 1 ~ line 8
S[[binding]]|b4 = \"::2\"|ipv4 = \"1.2.3.5\"|length = 2|[[binding]]|b4 = \"::3\"|ipv4 = \"1.2.3.5\" ~ rules mixed-shape 0 1 ~ lines 5, 9
S[[binding]]|b4 = \"::2\"|ipv4 = \"1.2.3.5\"|[[binding]]|b4 = \"::3\"|ipv4 = \"1.2.3.6\"|psid = 65536 ~ range binding 1 psid ~ line 8
S[[binding]]|b4 = \"::2\"|ipv4 = \"\"\"|[[binding]]|\"\"\" ~ address binding 0 ipv4 ~ line 5
S[[binding]]|b4 = '''|[[binding]]'''|[['binding']]|ipv4 = 1 ~ address binding 0 b4 ~ none
S[[\"binding\"]] ~ missing binding 0 b4 ~ none
S[[binding]]|b4 = \"::2\"|ipv4 = \"1.2.3.5\"|[['binding']] ~ missing binding 1 b4 ~ none
version = 1|binding = [{b4 = 1}]|softwire = {aftr = \"::1\", own = \"1.2.3.4\"} ~ kind binding 0 b4 ~ none
version = 1|binding = [1]|softwire = {aftr = \"::1\", own = \"1.2.3.4\"} ~ kind binding ~ none
S|mtu6 = 1279 ~ rules mtu ~ none
Shop_limit = 0 ~ rules hop ~ none
";

const SETTINGS: &str = "version = 1|[softwire]|aftr = \"::1\"|own = \"1.2.3.4\"|";

// The refusal of a file.
fn refusal(alloc: Global, file: &[u8]) -> Result<FileRefused, Fail> {
    match read_table(alloc, file) {
        Err(FileError::Refused(refused)) => Ok(refused),
        _ => Err("a refusal".into()),
    }
}

// The refusal of a file and its lines, as a text.
fn told(alloc: Global, file: &[u8]) -> Result<String, Fail> {
    let refused = refusal(alloc, file)?;
    let lines = lines_text(alloc, line_of(alloc, file, &refused)?)?;
    Ok(format!(in alloc; "{refused} ~ {lines}")?)
}

fn lines_text(alloc: Global, lines: Option<Lines>) -> Result<String, OutOfMemory> {
    Ok(match lines {
        None => format!(in alloc; "none")?,
        Some(Lines::One(line)) => format!(in alloc; "line {line}")?,
        Some(Lines::Both(first, second)) => format!(in alloc; "lines {first}, {second}")?,
        Some(Lines::Through(first, last)) => format!(in alloc; "lines {first} to {last}")?,
    })
}

// The file of a row, as `files` spells it: `S` at its begin stands for the settings.
fn file_of(alloc: Global, row: &str) -> Result<String, Fail> {
    match row.strip_prefix("S") {
        Some(rest) => {
            let text = format!(in alloc; "{SETTINGS}{rest}")?;
            spelled(alloc, text.as_str())
        }
        None => spelled(alloc, row),
    }
}

// Whether the refusal of a row's file and its lines are told, also where a carriage return stands before each line feed.
fn is_told(alloc: Global, line: &str) -> Result<bool, Fail> {
    let (row, wanted) = line.split_once(" ~ ").ok_or("an answer")?;
    let file = file_of(alloc, row)?;
    let ends = file.replace(alloc, "\n", "\r\n")?;
    Ok(
        told(alloc, file.as_bytes())?.as_str() == wanted
            && told(alloc, ends.as_bytes())?.as_str() == wanted,
    )
}

#[test]
fn tells_the_lines_of_a_refusal(rt: HostRuntime) -> Result<(), Fail> {
    for line in FILES.lines() {
        assert!(rt; is_told(rt.alloc(), line)?, "{line}");
    }
    Ok(())
}

fn are_told(alloc: Global, bytes: &[u8], wanted: &str) -> Result<bool, Fail> {
    Ok(told(alloc, bytes)?.as_str() == wanted)
}

#[test]
fn tells_the_line_of_the_first_byte_that_is_no_text(rt: HostRuntime) -> Result<(), Fail> {
    let alloc = rt.alloc();
    let lines = [
        are_told(
            alloc,
            b"version = 1\n# \xc3\xa4\n# \xc3\n# \xff\n",
            "not-toml ~ line 3",
        )?,
        are_told(alloc, b"\n\n\xff", "not-toml ~ line 3")?,
        are_told(alloc, b"# \xe2\x82", "not-toml ~ line 1")?,
    ];
    assert_eq!(rt; lines, [true; 3]);
    Ok(())
}

// What a file was changed to.
const CHANGED: &str = "\
S[[binding]]|b4 = \"::2\"|ipv4 = \"1.2.3.5\"|[[binding]]|b4 = 1
S[[binding]]|b4 = 1|[[binding]]|b4 = 1
S
S[[binding]
S[[binding]]|b4 = \"::2\"|ipv4 = \"1.2.3.5\"";

// Whether no line is told of a changed file: neither of the refusal that it had, nor of TOML where it is TOML.
fn is_untold(alloc: Global, row: &str, refused: &FileRefused) -> Result<bool, Fail> {
    let file = file_of(alloc, row)?;
    let bytes = file.as_bytes();
    Ok(
        line_of(alloc, bytes, refused)?.is_none()
            && (row.ends_with("[[binding]")
                || line_of(alloc, bytes, &FileRefused::NotToml)?.is_none()),
    )
}

#[test]
fn tells_nothing_of_a_file_that_was_changed(rt: HostRuntime) -> Result<(), Fail> {
    let alloc = rt.alloc();
    let old = file_of(alloc, "S[[binding]]|b4 = \"::2\"|[[binding]]|b4 = 1")?;
    let refused = refusal(alloc, old.as_bytes())?;
    for row in CHANGED.lines() {
        assert!(rt; is_untold(alloc, row, &refused)?, "{row}");
    }
    Ok(())
}

// Files of many marks, of which some are read once more, and one that is not, since that would take long.
const MARKS: &str = "\
a = 1|= 2|`. 130998` ~ not-toml ~ line 2
a = 1|= 2|`. 524286` ~ not-toml ~ line 2
a = 1|= 2|`. 524287` ~ not-toml ~ none
S[[binding]]|b4 = 1 #`.[={ 131073` ~ kind binding 0 b4 ~ line 5";

#[test]
fn tells_no_line_where_reading_once_more_would_take_long(rt: HostRuntime) -> Result<(), Fail> {
    for line in MARKS.lines() {
        let (row, wanted) = line.split_once(" ~ ").ok_or("an answer")?;
        let file = file_of(rt.alloc(), row)?;
        assert!(rt; are_told(rt.alloc(), file.as_bytes(), wanted)?, "{line}");
    }
    Ok(())
}
