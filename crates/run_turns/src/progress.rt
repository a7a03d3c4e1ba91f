// How far a run has come.
use aftr_text::Totals;
use error_limit::Limiter;
use item_stage::Stage;

/// How far a run has come.
#[derive(Drop)]
pub struct Progress {
    /// What is known of the datagrams of earlier records.
    pub stage: Stage,
    /// The number of the next record.
    pub number: u32,
    pub totals: Totals,
    /// The limit on errors, if there is one.
    pub limit: Option<Limiter>,
    /// How many loads have their line.
    pub printed: usize,
}
