// The first key of a file that its table does not have.
use crate::files::spelled;
use aftr_base::OutOfMemory;
use std::alloc::Global;
use std::test::Fail;
use table_hints::{KeyPlace, Lines, UnknownKey, unknown_key};

// A line has a file, as `files` spells it, and the key, its table, and the line of that table where it is a binding.
const FILES: &str = "version = 1 ~ none
S ~ none
S[[binding]]|b4 = \"::2\"|ipv4 = \"1.2.3.5\"|offset = 1|length = 1|psid = 1 ~ none
Smtu6 = 1500|mtu4 = 1500|hop_limit = 64|hairpin = true|icmp_in = true|errors_up = true|errors_down = true ~ none
version = 1|x = 1 ~ (x) top
version = 1|x = 1|[softwire]|y = 1|[[binding]]|z = 1 ~ (x) top
version = 1|[softwire]|y = 1|[[binding]]|z = 1 ~ (y) softwire
version = 1|[[binding]]|z = 1|[softwire]|y = 1 ~ (y) softwire
version = 1|[softwire]|[[binding]]|z = 1 ~ (z) binding 0 line 3
S[[binding]]|b4 = 1|[[binding]]|psids = 1|[[binding]]|a = 1 ~ (psids) binding 1 line 7
z = 1|b = 1|c = 1 ~ (b) top
S[[binding]]|z = 1|psid = 1|c = 1|C = 1 ~ (C) binding 0 line 5
Smtu = 1500 ~ (mtu) softwire
Shop-limit = 64 ~ (hop-limit) softwire
S\"mtu6 \" = 1 ~ (mtu6 ) softwire
S\"\" = 1 ~ () softwire
S[[binding]]|\"a\\tb\" = 1 ~ (a\tb) binding 0 line 5
b4 = 1 ~ (b4) top
Sversion = 1 ~ (version) softwire
S[[binding]]|own = 1 ~ (own) binding 0 line 5
S[bindings] ~ (bindings) top
S[softwire.x] ~ (x) softwire
S[binding] ~ none
softwire = 1|binding = [{}, {z = 1}] ~ (z) binding 1
S[[binding]]|a.b = 1|[['binding']]|c = 1 ~ (a) binding 0
softwire = 1|binding = [{z = 1}, 1] ~ none
binding = 1|softwire.x = 1 ~ (x) softwire
= ~ none
x = 1|= ~ none
x = 1|x = 1 ~ none
";

const SETTINGS: &str = "version = 1|[softwire]|aftr = \"::1\"|own = \"1.2.3.4\"|";

fn key_text(alloc: Global, found: Option<UnknownKey>) -> Result<String, OutOfMemory> {
    let Some(found) = found else {
        return Ok(format!(in alloc; "none")?);
    };
    let key = found.key.as_str();
    Ok(match (found.place, found.line) {
        (KeyPlace::Top, None) => format!(in alloc; "({key}) top")?,
        (KeyPlace::Softwire, None) => format!(in alloc; "({key}) softwire")?,
        (KeyPlace::Binding(at), None) => format!(in alloc; "({key}) binding {at}")?,
        (KeyPlace::Binding(at), Some(Lines::One(line))) => {
            format!(in alloc; "({key}) binding {at} line {line}")?
        }
        _ => format!(in alloc; "({key}) with other lines")?,
    })
}

fn are_told(alloc: Global, bytes: &[u8], wanted: &str) -> Result<bool, Fail> {
    Ok(key_text(alloc, unknown_key(alloc, bytes)?)?.as_str() == wanted)
}

// The file of a row; `S` at its begin stands for the settings.
fn file_of(alloc: Global, row: &str) -> Result<String, Fail> {
    match row.strip_prefix("S") {
        Some(rest) => {
            let text = format!(in alloc; "{SETTINGS}{rest}")?;
            spelled(alloc, text.as_str())
        }
        None => spelled(alloc, row),
    }
}

fn is_told(alloc: Global, line: &str) -> Result<bool, Fail> {
    let (row, wanted) = line.split_once(" ~ ").ok_or("an answer")?;
    let file = file_of(alloc, row)?;
    are_told(alloc, file.as_bytes(), wanted)
}

#[test]
fn tells_the_first_unknown_key(rt: HostRuntime) -> Result<(), Fail> {
    for line in FILES.lines() {
        assert!(rt; is_told(rt.alloc(), line)?, "{line}");
    }
    Ok(())
}

// Files that are read once more, and others that are not, since that would take long.
const LONG: &str = "\
x = 1|#`# 131073` ~ (x) top
x = 1|y = \"\"|#`.[={ 131073` ~ (x) top
x = 1|y = [`[], 524286`] ~ none
x = 1|[`y 96`]|#`# 131073` ~ (x) top
x = 1|[`y 97`]|#`# 131073` ~ none
x = 1|[`y 97`]|#`# 1310` ~ (x) top";

#[test]
fn tells_no_key_where_reading_once_more_would_take_long(rt: HostRuntime) -> Result<(), Fail> {
    for line in LONG.lines() {
        assert!(rt; is_told(rt.alloc(), line)?, "{line}");
    }
    Ok(())
}

#[test]
fn tells_no_key_of_bytes_that_are_no_text(rt: HostRuntime) -> Result<(), Fail> {
    let alloc = rt.alloc();
    assert!(rt; are_told(alloc, b"x = 1 # \xff", "none")?);
    assert!(rt; are_told(alloc, b"", "none")?);
    Ok(())
}
