// What a stage answers for a record.
use aftr_base::Numbers;
use ip_codec::Item;

/// What one record becomes. Definitions speak of it; `Items` gives the same without a copy of the bytes.
#[derive(Debug, Drop)]
pub struct Entry {
    /// The first record's number of each datagram whose time is up with this record, ascending.
    pub ended: Numbers,
    pub item: Item,
}
