// A tensor decision diagram.
#![tactic(auto)]

pub mod build;
mod cache;
pub mod collect;
mod compact;
pub mod compare;
pub mod contract;
pub mod diagram;
mod edge;
mod entry;
mod fields;
pub mod gate;
mod insert;
pub mod join;
pub mod lower;
pub mod make;
mod mark;
mod mask;
mod matrices;
pub mod node;
mod normalise;
mod operation;
pub mod registers;
pub mod restore;
pub mod sum;
pub mod support;
mod table;
pub mod unit;
pub mod value;
