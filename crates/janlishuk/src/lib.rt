// The library that others call: the calls that `janlishuk_c` exports to C, and for Rattle callers the record as
// a part of their own bytes and the point as an enum. No call asks anything of its caller.
#![tactic(auto)]

pub use between::{janlishuk_engine_row, janlishuk_plan, janlishuk_profile, janlishuk_verdict};
pub use file::{janlishuk_base, janlishuk_check, janlishuk_name};
pub use ground::measure::Metres;
pub use ground::name::NameAnswer;
pub use ground::point::Point;
pub use ground::refusal::Refusal;
pub use ground::table::BaseAnswer;
pub use link::clear::VerdictAnswer;
pub use plan::PlanAnswer;
pub use point::{
    EngineAnswer, engine_point, janlishuk_engine_point, janlishuk_read, janlishuk_spot, record,
};
pub use profile::ProfileAnswer;
pub use profile::row::{Row, RowAnswer};
pub use reading::engine::EnginePoint;
pub use reading::point::ReadAnswer;
pub use survey::UploadAnswer;
pub use terrain::check::CheckAnswer;
pub use upload::janlishuk_upload;

pub mod between;
pub mod file;
pub mod point;
pub mod upload;
