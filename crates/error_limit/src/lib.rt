//! A limit on the errors that the router sends: a token bucket over the times of a capture (RFC 4443, section 2.4 (f)). The
//! definition counts the errors sent over every span of time; the code keeps one level and one time, and the two agree.
#![tactic(auto)]

mod laws;
mod limiter;

pub use laws::one_marking;
pub use limiter::Limiter;
