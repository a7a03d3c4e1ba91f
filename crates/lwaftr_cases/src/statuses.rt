// The codes and lines of statuses.
use binding_file::FileRefused;
use binding_rules::Refused;
use capture_io::CaptureBad;
use lwaftr_engine::{Status, code, status_line};
use std::test::Fail;

#[test]
fn statuses_have_codes_and_lines(rt: HostRuntime) -> Result<(), Fail> {
    let twice = FileRefused::Rules(Refused::Twice {
        first: 0,
        second: 64,
    });
    let cases = [
        (Status::Done, 0, "done\n"),
        (Status::DoneRefused, 1, "done, a load was refused\n"),
        (Status::Usage, 2, "usage\n"),
        (Status::ReadFault, 3, "read fault\n"),
        (Status::WriteFault, 4, "write fault\n"),
        (
            Status::BadTable(FileRefused::NotToml),
            5,
            "table refused: not-toml\n",
        ),
        (
            Status::BadTable(twice),
            5,
            "table refused: rules twice 0 64\n",
        ),
        (
            Status::BadCapture(CaptureBad::Magic),
            6,
            "capture refused: magic\n",
        ),
        (
            Status::BadCapture(CaptureBad::Link { number: 113 }),
            6,
            "capture refused: link 113\n",
        ),
        (
            Status::BadCapture(CaptureBad::CutRecord { at: 24 }),
            6,
            "capture refused: cut record at 24\n",
        ),
        (Status::OutOfMemory, 7, "out of memory\n"),
    ];
    for (status, number, line) in cases {
        assert_eq!(rt; code(&status), number);
        assert_eq!(rt; status_line(rt.alloc(), &status)?.as_str(), line);
    }
    Ok(())
}
