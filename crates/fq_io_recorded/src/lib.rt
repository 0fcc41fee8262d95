//! Files and sinks that tell their bytes, over others that don't, and hold none of them twice.
#![tactic(auto)]

mod handed;
mod handed_files;
mod reading;
mod told_sink;
mod wanted;

pub use handed_files::HandedFiles;
pub use reading::read_wanted;
pub use told_sink::ToldSink;
pub use wanted::Wanted;
