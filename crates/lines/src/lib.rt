// The lines of a run: as data, as bytes in any lent buffer that holds the longest, and what a caller's output shows of them.
#![tactic(auto)]

mod last_lines;
pub mod line;
mod report;
pub mod shown;
mod word;
