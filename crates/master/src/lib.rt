// The LIN master above the UART: its state, and every call on it (document 01, "Calls and steps", "Status", and the sending half of
// "Diagnostic messages"). Every call accepts every table, state, buffer and number; a refused one changes nothing. The calls are
// methods of `state::State`, one module each; a tick and a byte hand the state back, the others change it in place. What holds of every history of
// calls is the record `Claim` of specs/Claim.antt, proved as `demand_3` in proofs/History/Claimed.antt.
#![tactic(auto)]

pub mod admit;
pub mod ahead;
pub mod byte;
pub mod closing;
pub mod message;
pub mod pending;
mod placed;
pub mod plan;
pub mod read;
pub mod received;
pub mod row;
pub mod select;
pub mod send;
pub mod start;
pub mod state;
pub mod status;
pub mod tick;
pub mod transfer;
pub mod write;
