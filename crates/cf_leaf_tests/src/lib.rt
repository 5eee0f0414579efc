//! Tests of the leaves: plain types, codecs, sources and sinks, ranges, reports and made scripts.
#![tactic(auto)]

#[cfg(test)]
mod base;
#[cfg(test)]
mod codec;
#[cfg(test)]
mod io;
#[cfg(test)]
mod made;
#[cfg(test)]
mod ranges;
#[cfg(test)]
mod report;
