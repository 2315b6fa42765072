// Texts: lines read into calls, answers printed, verdict texts.
#![tactic(auto)]

pub mod answer;
mod apply;
mod args;
pub mod call;
pub mod check;
pub mod engine;
mod gate;
pub mod judge;
pub mod limits;
pub mod line;
mod list;
mod names;
pub mod number;
mod operate;
mod perform;
mod print;
pub mod progress;
mod qubits;
mod respond;
pub mod ruling;
pub mod session;
pub mod split;
pub mod squeeze;
mod words;
