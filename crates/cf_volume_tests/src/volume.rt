//! What no clause says: that the calls succeed where disk, memory and room do, and what they then do on a disk.

mod cuts;
mod edits;
mod first_format;
mod limits;
mod openings;
mod quotas;
mod scripts;
mod steps;
