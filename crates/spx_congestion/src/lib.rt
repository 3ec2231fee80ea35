//! When the units of a connection are sent: how many may be in flight, which one is sent again, and
//! when.
//!
//! [`Pacer`] works beside one link of `spx_link`, and holds no unit, clock or socket. The caller
//! tells it of each packet that the link read or gave, and it plans what the link may do at the
//! next poll. The speed that its plans give is measured, not proved.
#![tactic(auto)]

mod cubic;
mod due;
mod giving;
mod hearing;
pub mod laws;
mod least_trip;
mod leaving;
mod loss_recovery;
mod pacer;
mod plan;
mod planning;
mod round_trip;
mod send_budget;
mod send_times;
mod sent_kind;
mod timeout;
mod window;

pub use pacer::Pacer;
pub use plan::Plan;
pub use sent_kind::SentKind;
pub use window::MOST_UNITS_EACH_SECOND;
