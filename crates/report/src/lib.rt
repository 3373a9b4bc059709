// Reports: what a frame shows under the SAE tables and a supplement.
#![tactic(auto)]

mod answer;
mod bits;
mod group;
pub mod iso;
mod items;
pub mod j1850;
pub mod line;
pub mod lines;
mod message;
pub mod refusal;
mod row;
mod rows;
mod scaling;
pub mod spots;
pub mod tally;
mod verdict;
mod window;
