// Texts of table files.

/// One subscriber with a whole address.
pub const WHOLE_TABLE: &str = "version = 1
[softwire]
aftr = \"2001:db8::1\"
own = \"192.0.2.1\"
[[binding]]
b4 = \"2001:db8:1::1\"
ipv4 = \"203.0.113.1\"
";

/// One subscriber with a port set: identifier 52 behind an offset of 6 and in 8 bits (RFC 7597, appendix A).
pub const PORT_SET_TABLE: &str = "version = 1
[softwire]
aftr = \"2001:db8::1\"
own = \"192.0.2.1\"
[[binding]]
b4 = \"2001:db8:1::1\"
ipv4 = \"203.0.113.1\"
offset = 6
length = 8
psid = 52
";
