// Texts that would cost too much to read as TOML, and others that only look like them.
use crate::files::{are, has_answer, spelled};
use binding_file::is_too_costly;
use std::alloc::Global;
use std::test::Fail;

// A line has a text, as `files` spells it, its answer, and the answer where line feeds behind it make it too long for what is always
// read.
const RUNS: &str = "[`x 96`] ~ missing version ~ missing version
[`x 97`] ~ missing version ~ too-costly
[[`x 96`]] ~ missing version ~ missing version
[[`x 97`]] ~ missing version ~ too-costly
[\"`x 94`\"] ~ missing version ~ missing version
[\"`x 95`\"] ~ missing version ~ too-costly
[\"=#,]{`x 90`\"] ~ missing version ~ too-costly
[\"\\\"`x 93`\"] ~ missing version ~ too-costly
['`x 95`'] ~ missing version ~ too-costly
[a.b.`x 78`] ~ missing version ~ missing version
[a.b.`x 79`] ~ missing version ~ too-costly
[a.b.\".`x 75`\"] ~ missing version ~ missing version
[`  15`\t`  22`a`  18`. b   .          `x 78``  17`] ~ missing version ~ missing version
[`  15`\t`  22`a`  18`. b   .          `x 79``  17`] ~ missing version ~ too-costly
a = 1|  [`x 97`] ~ missing version ~ too-costly
\u{feff}[`x 97`] ~ missing version ~ too-costly
# [`x 97`] ~ missing version ~ missing version
# '|[`x 97`] ~ missing version ~ too-costly
# \"\"\"|[`x 97`] ~ missing version ~ too-costly
a = 1 # \"|[`x 97`] ~ missing version ~ too-costly
a = \"[`x 97`]\" ~ missing version ~ missing version
a = '[`x 97`]' ~ missing version ~ missing version
a = \"\\\"[`x 97`]\" ~ missing version ~ missing version
a = \"\\\\\" #[`x 97`] ~ missing version ~ missing version
a = \"\\\\\"|[`x 97`] ~ missing version ~ too-costly
a = '\\'|[`x 97`] ~ missing version ~ too-costly
a = \"\"|b = \"[`x 97`]\" ~ missing version ~ missing version
a = \"\"|[`x 97`] ~ missing version ~ too-costly
a = ''|[`x 97`] ~ missing version ~ too-costly
a = \"\"\"[`x 97`]\"\"\" ~ missing version ~ missing version
a = \"\"\"|[`x 97`]|\"\"\" ~ missing version ~ missing version
a = '''|[`x 97`]|''' ~ missing version ~ missing version
a = \"\"\"'\"\"\"|[`x 97`] ~ missing version ~ too-costly
a = \"\"\"\"\"\"|[`x 97`] ~ missing version ~ too-costly
a = \"\"\"\"\"\"\"|[`x 97`] ~ missing version ~ too-costly
a = \"\"\"b\"\"\"\"|[`x 97`] ~ missing version ~ too-costly
a = \"\"\"b\"\"\"\"\"|[`x 97`] ~ missing version ~ too-costly
a = \"\"\"b\"\"|[`x 97`]\"\"\" ~ missing version ~ missing version
a = \"\"\"\\\"\"\"|[`x 97`]\"\"\" ~ missing version ~ missing version
a = \"\"\"\\\"\"\"\"|[`x 97`] ~ missing version ~ too-costly
a = \"\"\"\"\\\"\"|[`x 97`]\"\"\" ~ missing version ~ missing version
a = \"\"\"\\\\\"\"\"|[`x 97`] ~ missing version ~ too-costly
a = \"\"\"b\"\"\" # [`x 97`] ~ missing version ~ missing version
a = '''\"'''|[`x 97`] ~ missing version ~ too-costly
a = '''b''|[`x 97`]''' ~ missing version ~ missing version
a = '''b''''|[`x 97`] ~ missing version ~ too-costly
a = '''b'''''|[`x 97`] ~ missing version ~ too-costly
a = '''\\'''|[`x 97`] ~ missing version ~ too-costly
a = \"\"\"b\"\"\"|[`x 96`] ~ missing version ~ missing version
a = \"\"\"b\"\"\"|[\"=`x 97`\"] ~ missing version ~ too-costly
a = '''b'''|['=`x 97`'] ~ missing version ~ too-costly
a = 1 ~ missing version ~ missing version";

// Sound files that a person may write.
const SOUND: &str =
    "version = 1|[        softwire         ]|aftr = \"::1\"|own = \"1.2.3.4\" ~ valid 0 ~ valid 0
version = 1|[[`  37`binding`  24`]]|b4 = \"::2\"|ipv4 = \"1.2.3.5\"|[softwire]|aftr = \"::1\"|own = \"1.2.3.4\" ~ valid 1 ~ valid 1
version = 1|[softwire]|aftr = \"\"\"::1\"\"\"|# [see the list of customers of the region, kept by the office of that region, \
    which has all of them]|own = \"1.2.3.4\" ~ valid 0 ~ valid 0
version = 1|[softwire]|aftr = '''::1'''|# the customer's list [see the list of customers of the region, \
    kept by the office of that region]|own = \"1.2.3.4\" ~ valid 0 ~ valid 0
version = 1|[\"\\u0073\\u006f\\u0066\\u0074wire\"]|aftr = \"::1\"|own = \"1.2.3.4\" ~ valid 0 ~ valid 0
version = 1|[\"\\U00000073\\U0000006f\\U00000066\\U00000074\\U00000077\
    \\U00000069\\U00000072\\U00000065\"]|aftr = \"::1\"|own = \"1.2.3.4\" ~ valid 0 ~ valid 0
version = 1|binding = [`  145`{ b4 = \"::2\", ipv4 = \"1.2.3.5\" } ]|[softwire]|aftr = \"::1\"|own = \"1.2.3.4\" ~ valid 1 ~ valid 1";

// Whether a text has its answers. What is short is read, and what is long only if its answer is another than `too-costly`.
fn has_answers(alloc: Global, line: &str) -> Result<bool, Fail> {
    let (text, rest) = line.split_once(" ~ ").ok_or("an answer")?;
    let (short, long) = rest.split_once(" ~ ").ok_or("another answer")?;
    let file = spelled(alloc, text)?;
    let filled = format!(in alloc; "{text}`| 131072`")?;
    let filled = spelled(alloc, filled.as_str())?;
    Ok(
        !is_too_costly(file.as_bytes())
            && is_too_costly(filled.as_bytes()) == (long == "too-costly")
            && are(alloc, file.as_bytes(), short)?
            && are(alloc, filled.as_bytes(), long)?,
    )
}

#[test]
fn headers_weigh_96_at_most(rt: HostRuntime) -> Result<(), Fail> {
    for line in RUNS.lines() {
        assert!(rt; has_answers(rt.alloc(), line)?, "{line}");
    }
    Ok(())
}

#[test]
fn sound_files_are_not_too_costly(rt: HostRuntime) -> Result<(), Fail> {
    for line in SOUND.lines() {
        assert!(rt; has_answers(rt.alloc(), line)?, "{line}");
    }
    Ok(())
}

// First lines, and the answer to each before what would cost too much.
const FIRST_LINES: &str = "[ ~ not-toml
[|  { \"b4\": \"::2\" }| ~ not-toml
[{\"b4\": \"::2\", \"ipv4\": \"1.2.3.5\"}] ~ not-toml
[\"::2\", \"1.2.3.5\"] ~ not-toml
[1, 2] ~ not-toml
[a] b ~ not-toml
[[a] ~ not-toml
[[a]] b ~ not-toml
[] ~ not-toml
{\"version\": 1} ~ not-toml
{ ~ not-toml
b4,ipv4,offset,length,psid ~ not-toml
\"b4\",\"ipv4\" ~ not-toml
1.2.3.5,6,8,52,::2 ~ not-toml
version: 1 ~ not-toml
- b4: \"::2\" ~ not-toml
--- ~ not-toml
<table> ~ not-toml
a ~ not-toml
a = ~ not-toml
a = b ~ not-toml
a = 1 2 ~ not-toml
a = \"b ~ not-toml
a = 'b' c ~ not-toml
= 1 ~ not-toml
|# a comment|  [1, 2] ~ not-toml
\u{feff}[1, 2] ~ not-toml
# a comment ~ too-costly
[a] ~ too-costly
[ 'a' . \"b\" ] # c ~ too-costly
[[a]] ~ too-costly
a = 1 ~ too-costly
a . 'b' = 1 # c ~ too-costly
a = [ ~ too-costly
a = [1, 2] ~ too-costly
a = { ~ too-costly
a = \"b\" ~ too-costly
a = \"\"\"b|c\"\"\" ~ too-costly
a = 2026-11-27 07:32:00 ~ too-costly
a = 1|[1, 2] ~ too-costly
\u{feff}|# a comment|a = 1 ~ too-costly";

fn is_first_line(alloc: Global, line: &str) -> Result<bool, Fail> {
    let (first, wanted) = line.split_once(" ~ ").ok_or("an answer")?;
    let text = format!(in alloc; "{first}|[`x 97`]`| 131072`")?;
    has_answer(alloc, text.as_str(), wanted)
}

#[test]
fn a_first_line_that_is_no_toml_is_not_toml_whatever_follows(rt: HostRuntime) -> Result<(), Fail> {
    for line in FIRST_LINES.lines() {
        assert!(rt; is_first_line(rt.alloc(), line)?, "{line}");
    }
    Ok(())
}

// A text of so many bytes is read, and one of one byte more is not.
const SMALL: &str = "[`x 131070`] ~ missing version
[`x 131070`]| ~ too-costly";

// Quoted headers behind texts of several lines are followed.
const QUOTED: &str = "x = \"\"\"a\"\"\"|[\"=`x 1000000`\"]|aaaa=1| ~ too-costly
x = \"\"\"a\"\"\"|[\",`x 1000000`\"]|aaaa=1| ~ too-costly
x = \"\"\"a\"\"\"|[\"#`x 1000000`\"]|aaaa=1| ~ too-costly
x = \"\"\"a\"\"\"|[\"]`x 1000000`\"]|aaaa=1| ~ too-costly
x = \"\"\"a\"\"\"|[\"{`x 1000000`\"]|aaaa=1| ~ too-costly
x = \"\"\"a\"\"\"|['=`x 1000000`']|aaaa=1| ~ too-costly
x = \"\"\"a\"\"\"|[',`x 1000000`']|aaaa=1| ~ too-costly
x = \"\"\"a\"\"\"|['#`x 1000000`']|aaaa=1| ~ too-costly
x = \"\"\"a\"\"\"|[']`x 1000000`']|aaaa=1| ~ too-costly
x = \"\"\"a\"\"\"|['{`x 1000000`']|aaaa=1| ~ too-costly
x = '''a'''|[\"=`x 1000000`\"]|aaaa=1| ~ too-costly
x = '''a'''|[\",`x 1000000`\"]|aaaa=1| ~ too-costly
x = '''a'''|[\"#`x 1000000`\"]|aaaa=1| ~ too-costly
x = '''a'''|[\"]`x 1000000`\"]|aaaa=1| ~ too-costly
x = '''a'''|[\"{`x 1000000`\"]|aaaa=1| ~ too-costly
x = '''a'''|['=`x 1000000`']|aaaa=1| ~ too-costly
x = '''a'''|[',`x 1000000`']|aaaa=1| ~ too-costly
x = '''a'''|['#`x 1000000`']|aaaa=1| ~ too-costly
x = '''a'''|[']`x 1000000`']|aaaa=1| ~ too-costly
x = '''a'''|['{`x 1000000`']|aaaa=1| ~ too-costly";

// A text has 1,048,576 marks at most.
const MARKS: &str = "`[ 1048577` ~ not-toml
[a]|`. 1048575` ~ not-toml
[a]|`. 1048576` ~ too-costly
[a]|`= 1048575` ~ not-toml
[a]|`= 1048576` ~ too-costly
[a]|`[ 1048575` ~ too-costly
[a]|`[ 1048576` ~ too-costly
[a]|`{ 1048575` ~ too-costly
[a]|`{ 1048576` ~ too-costly
a = 1 # `. 1048577` ~ missing version
a = '`= 1048577`' ~ missing version";

fn first_other(alloc: Global, lines: &'static str) -> Result<Option<&'static str>, Fail> {
    for line in lines.lines() {
        let (text, wanted) = line.split_once(" ~ ").ok_or("an answer")?;
        if !has_answer(alloc, text, wanted)? {
            return Ok(Some(line));
        }
    }
    Ok(None)
}

#[test]
fn small_files_are_read_and_many_marks_and_quoted_headers_are_not(
    rt: HostRuntime,
) -> Result<(), Fail> {
    for lines in [SMALL, QUOTED, MARKS] {
        assert_eq!(rt; first_other(rt.alloc(), lines)?, None);
    }
    Ok(())
}

// Bytes without an order, one more than are always read.
fn noise(alloc: Global) -> Result<Vec<u8>, Fail> {
    let mut bytes = Vec::new(alloc);
    let mut state = 1u32;
    for _ in 0..131_073 {
        state = state.wrapping_mul(1_664_525).wrapping_add(1_013_904_223);
        bytes.push((state >> 24) as u8)?;
    }
    Ok(bytes)
}

#[test]
fn bytes_that_are_no_text_are_not_toml(rt: HostRuntime) -> Result<(), Fail> {
    let alloc = rt.alloc();
    assert!(rt; are(alloc, &noise(alloc)?, "not-toml")?);
    let file = spelled(alloc, "a = `[ 1048576`")?;
    assert!(rt; are(alloc, file.as_bytes(), "too-costly")?);
    let mut bytes = Vec::from_slice(alloc, file.as_bytes())?;
    bytes.push(0xff)?;
    assert!(rt; are(alloc, &bytes, "not-toml")?);
    Ok(())
}

#[test]
fn a_text_that_is_too_big_is_not_looked_at(rt: HostRuntime) -> Result<(), Fail> {
    let alloc = rt.alloc();
    let mut marks = vec![in alloc; b'['; 16_777_217]?;
    assert!(rt; are(alloc, &marks, "too-big")?);
    marks[0] = 0xff;
    assert!(rt; are(alloc, &marks, "too-big")?);
    Ok(())
}

// A text, and its answer. At most eight brackets may stand open.
const DEPTHS: &str = "a = [[[[[[[[1]]]]]]]] ~ missing version
a = [[[[[[[[[1]]]]]]]]] ~ too-costly
a = {a = {a = {a = {a = {a = {a = {a = {}}}}}}}} ~ missing version
a = {a = {a = {a = {a = {a = {a = {a = {a = {a = 1}}}}}}}}} ~ too-costly
a = [{a = [{a = [{a = [{}]}]}]}] ~ missing version
a = [{a = [{a = [{a = [{a = []}]}]}]}] ~ too-costly
a = [1, [[[[[[[2]]]]]]], [[[[[[[3]]]]]]]] ~ missing version
a = [1, [[[[[[[2]]]]]]], [[[[[[[[3]]]]]]]]] ~ too-costly
a = [|[|[|[|[|[|[|[|[|]|]|]|]|]|]|]|]|] ~ too-costly
a = [[[[[[[[ # [[|]]]]]]]] ~ missing version
a = [[[[[[[[ \"[[\" ]]]]]]]] ~ missing version
a = [[[[[[[[ # ]]]]|[1]]]]]]]]] ~ too-costly
a = [[[[[[[[ \"]]\", [1]]]]]]]]] ~ too-costly
[[[[[[[[[ ~ not-toml
[a]|[[[[[[[[ ~ not-toml
[a]|[[[[[[[[[ ~ too-costly
a = 1|]]]]|[[[[[[[[[ ~ too-costly
]]]] ~ not-toml";

#[test]
fn at_most_eight_brackets_stand_open(rt: HostRuntime) -> Result<(), Fail> {
    assert_eq!(rt; first_other(rt.alloc(), DEPTHS)?, None);
    Ok(())
}
