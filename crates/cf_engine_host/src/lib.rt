//! What an engine acts on.
//!
//! `EngineHost` has the steps of a filter, and those that an engine needs besides: lines of the running event, the records of the
//! book that is kept beside the items, and the callbacks of the engine's own provider. A filter on a disk is one, and a plain machine
//! without a disk can be one. specs/BookSteps says what becomes of the book, specs/Callbacks and specs/Draining which callbacks are
//! called; specs/CallbackLaws has the laws by which they are the drain of the definitions.
#![tactic(auto)]

mod hosts;

pub use hosts::EngineHost;
