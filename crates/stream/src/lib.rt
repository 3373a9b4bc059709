// The stream of a cable adapter: records that come in parts, cut anywhere.
#![tactic(auto)]

pub mod reader;
pub mod record;
pub mod refusal;
pub mod state;
