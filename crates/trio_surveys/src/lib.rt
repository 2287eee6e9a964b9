//! The theory of surveys: a survey goes by the pages that it reads, a sound survey is a tree, an image
//! that verifies is one tree with each page owned once, bodies can be put in place, and a core with a
//! table of rows is surveyed as its rows say. It knows nothing of grants and steps
//! (`docs/DEFINITIONS.md`).
#![tactic(auto)]

pub mod rows;
pub mod surveys;
