//! Multi-link setup, as both ends decide it: over plain requests and replies, with no memory taken
//! (IEEE Std 802.11be, 35.3.5).
#![tactic(auto)]

mod ap;
mod laws;
mod message;
mod station;
mod status;
mod table;

pub use ap::ApSetup;
pub use laws::{
    carrying_set_up, choice_of_known_links, entry_of_each_link, links_that_pass, repeated,
    reply_names_asked, same_if_equal, set_up_by_ask, set_up_by_reply,
};
pub use message::{SetupAsk, SetupRefusal, SetupReply};
pub use station::StationSetup;
pub use status::{INVALID_PARAMETERS, REQUEST_DECLINED, SUCCESS, UNSPECIFIED_FAILURE};
