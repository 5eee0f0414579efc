//! A report is judged beside a device that does the events of its script again: each of its answers is held against how the report goes on.
//!
//! `judge` promises that the verdict is right whatever lawful answers a device may have given, and not only those of this one. It needs of
//! the device that its answers are lawful over a remote that kept its rules, and that its commits for room are where it is told to make them. A
//! count of changes names one point that a restart may open in all runs with the answers of the report. The device is told what the next restart
//! of the report resumes. So where a restart of it resumes another count than the report says, no run resumes that one.
#![tactic(auto)]

mod counts;
mod devices;
mod differences;
mod judgements;
mod reports;
mod restarts;

pub use devices::Device;
pub use differences::{Difference, Judgement};
pub use reports::judge;
