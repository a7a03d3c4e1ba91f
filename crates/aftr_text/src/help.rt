// What a person needs who asks what the program is, or gave words that ask for nothing. `./lwaftr --help` and `./lwaftr --version`
// print these texts out of this file.

/// The version of the program. CONTRIBUTING says when it is raised.
pub const VERSION: &str = "1.1.0";

/// The commands with their words, options, files and exit codes, one example, and where more is told.
pub const HELP: &str = "\
lwaftr: the border router of Lightweight 4over6 (RFC 7596), proved. It forwards nothing
live: it reads a capture of packets, and writes a capture of those that are sent.

lwaftr run IN OUT VERDICTS VERSIONS TABLE [EARLIEST-LATEST:TABLE]... [--workers N] [--errors N]
    Reads the capture IN (pcap or pcapng) under the binding table TABLE, and writes OUT, the
    packets sent; VERDICTS, a line for each record; VERSIONS, a line for each table.
    EARLIEST-LATEST:TABLE  a later table, and between which records it comes into force
    --workers N            how many workers judge packets: 1 to 16 (default 1)
    --errors N             a bucket of N ICMP errors that gains N a second: 1 to 1000000
                           (default all are sent)
lwaftr check TABLE
    Says whether a table file is valid, and why not.
lwaftr who TABLE ADDRESS PORT
    Says which subscriber owns a port (0 to 65535) of an IPv4 address: its end of the
    tunnel, or none.
lwaftr demo SEED COUNT WORKERS
    Runs over COUNT records (1 to 1000000) generated from SEED (below 2^64), with 1 to 16
    workers, and touches no file.
lwaftr migrate TABLE NEW-TABLE
    Writes a table anew, in the newer edition of the format.

Exit codes: 0 done, 1 done but a load was refused, 2 usage, 3 read fault, 4 write fault,
5 table refused, 6 capture refused, 7 out of memory.
Example: lwaftr run in.pcap out.pcap verdicts.txt versions.txt table.toml --workers 4
Each file, key, line and rule: docs/FORMATS.md
";
