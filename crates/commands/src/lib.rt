//! The commands: words and a world in, a status and the world out. `run` is the top call.
#![tactic(auto)]

mod beginning;
mod begun;
mod desk;
mod given;
mod impact;
mod judging;
mod laws;
mod limits;
mod run_end;
mod serving;
mod stock;
mod top_call;
mod usage;
mod world;

pub use beginning::begin;
pub use begun::Begun;
pub use book_commands::{Note, Object, RunLog, RunStatus};
pub use given::{begin_given, run_given};
pub use laws::{position_laws, rejudge_laws, service_law};
pub use limits::limits_law;
pub use run_end::RunEnd;
pub use serving::run_service;
pub use top_call::run;
pub use world::{Channels, World};
