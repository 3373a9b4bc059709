// Frames of SAE J1850 with consolidated headers and messages of ISO 9141-2: byte runs to parts, and parts to byte runs.
#![tactic(auto)]

pub mod bytes;
pub mod check_byte;
pub mod count;
pub mod frame;
pub mod header;
pub mod iso;
pub mod reader;
pub mod refusal;
pub mod response;
mod seal;
pub mod writer;
