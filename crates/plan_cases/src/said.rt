// What people are told of a call of the system that failed.
use aftr_io::{ReadError, WriteCall, WriteError};
use aftr_text::{output_line, unread_line, unwritten_line};
use std::io;
use std::io::ErrorKind;
use std::test::Fail;

fn unread(rt: &HostRuntime, at: u64, number: i32) -> Result<String, Fail> {
    let alloc = rt.alloc();
    let last = ReadError {
        name: String::from_str(alloc, "in.pcap")?,
        at,
        error: io::Error::from_raw_os_error(number),
    };
    let line = unread_line(alloc, &last)?;
    Ok(String::from_str(alloc, line.as_str())?)
}

fn unwritten(rt: &HostRuntime, call: WriteCall, number: i32) -> Result<String, Fail> {
    let alloc = rt.alloc();
    let last = WriteError {
        call,
        name: String::from_str(alloc, "in.pcap")?,
        error: io::Error::from_raw_os_error(number),
    };
    let line = unwritten_line(alloc, &last)?;
    Ok(String::from_str(alloc, line.as_str())?)
}

// The numbers of errors are Linux's.
#[test]
fn a_failed_call_is_told_by_its_file_and_what_the_system_said(rt: HostRuntime) -> Result<(), Fail> {
    let alloc = rt.alloc();
    let mut lines = String::new(alloc);
    lines.push_str(unread(&rt, 0, 2)?.as_str())?;
    lines.push_str(unread(&rt, 4096, 5)?.as_str())?;
    lines.push_str(unwritten(&rt, WriteCall::Create, 13)?.as_str())?;
    lines.push_str(unwritten(&rt, WriteCall::Append, 28)?.as_str())?;
    lines.push_str(output_line(alloc, io::Error::from_raw_os_error(32))?.as_str())?;
    lines.push_str(output_line(alloc, io::Error::from(ErrorKind::WriteZero))?.as_str())?;
    assert_eq!(rt;
        lines.as_str(),
        "  in.pcap could not be read: No such file or directory (os error 2)
  in.pcap could not be read at byte 4096: Input/output error (os error 5)
  in.pcap could not be made: Permission denied (os error 13)
  in.pcap could not be written: No space left on device (os error 28)
  standard output could not be written: Broken pipe (os error 32)
  standard output could not be written: write zero
"
    );
    Ok(())
}
