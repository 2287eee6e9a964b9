//! Whole runs over files and sinks in memory, by tables of rows: the words, the image and the script,
//! what fails, and how the run ends.

mod commands;
mod faults;
mod images;
mod migrating;
mod rows;
mod sessions;
mod sharing;
mod sure;
