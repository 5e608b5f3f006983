// Diagnostic messages (document 01): cutting a message into frames of eight bytes, and the reassembler. Every call accepts
// every message, length, number, state, frame and buffer.
#![tactic(auto)]

pub mod cutting;
pub mod reassembly;
