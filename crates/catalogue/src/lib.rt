// The catalogue: the SAE tables and a supplement of records together.
#![tactic(auto)]

pub mod accept;
mod filter;
pub mod kind;
pub mod layout;
pub mod lookup;
mod record;
mod records;
pub mod refusal;
pub mod rows;
mod sae;
mod search;
pub mod supplement;
mod tables;
