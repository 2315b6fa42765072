// The archive: the engine's two calls for programs in other languages.
#![tactic(auto)]

pub mod export;
mod words;
