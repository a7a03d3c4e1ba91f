//! The ICMP errors that the router sends, and which packets get none (RFC 792, RFC 1122, RFC 4443).
#![tactic(auto)]

mod answers;
mod errors4;
mod fronts;
mod policy6;

pub use answers::{gets_answer, gets_answer_about, gets_answer6};
pub use errors4::{
    error_len, host_unreachable, push_error4, push_host_unreachable, push_time_exceeded,
    push_too_big, time_exceeded, too_big,
};
pub use policy6::{policy_len, push_source_policy6, source_policy6};
