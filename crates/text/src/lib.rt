// Texts from partners: words, sections and profiles, each layer over the one before, and what is told of a text.
// A layer that finds a fault hands it up; every reading ends with what was read or with one fault.
#![tactic(auto)]

pub mod fault;
mod names;
pub mod profiles;
pub mod reader;
pub mod report;
pub mod sections;
pub mod words;
pub mod write;
