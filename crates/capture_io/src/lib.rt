//! Capture files of the pcap format, version 2.4: the file header and the records, read at places of a file or in rounds, each
//! refusal the first true one, and written, as pcap or in blocks; the trait of readers of any format, and what a block may be refused
//! for; and the frames of the records.
#![tactic(auto)]

mod classic;
mod forms;
mod frames;
mod fronts;
mod header;
mod laws;
mod ng_bad;
mod record;
mod records;
mod rounds;
mod window;
mod words;
mod written;

pub use classic::{ClassicReader, MOST_PIECE, fitting, piece_of};
pub use forms::{CaptureBad, CaptureError, Form, Next, Rec};
pub use frames::{Frame, frame_of};
pub use header::{ETHERNET, FILE_HEADER_LEN, PLAIN_IP, put_header, read_header};
pub use laws::{one_reading, records_rise, some_reading, spelling_is_read, written_is_read};
pub use ng_bad::NgBad;
pub use record::{MOST_BYTES, MOST_RECORDS, RECORD_HEADER_LEN, next_record, put_record, time_of};
pub use records::{MOST_TAKEN, Place, RecordView, Records};
pub use rounds::{CaptureReader, Ending, Round};
pub use window::Window;
pub use words::{half, word};
pub use written::{Written, section};
