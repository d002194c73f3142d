//! MAC frames, their AAD and nonces, and what seals them.
#![tactic(auto)]

mod aad;
mod decode;
mod encode;
mod fields;
mod header;
mod key;
mod laws;
mod nonce;
mod octets;
mod refusal;
mod sealer;
mod stand_in;
mod well_formed;

pub use aad::{Aad, aad_of};
pub use decode::decode_frame;
pub use encode::encode_frame;
pub use header::{Frame, Header, Kind, Protection};
pub use key::Key;
pub use laws::{
    aad_len, nonce_once, nonce_tells_lane, read_once, read_or_refused, round_trip, spelled_once,
};
pub use nonce::nonce_of;
pub use sealer::{Sealer, are_octets, can_seal_under, sealer_is_sealing};
pub use stand_in::StandIn;
