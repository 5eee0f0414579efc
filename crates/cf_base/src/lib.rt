//! The plain types of the system: numbers, bytes, names, policies, changes, operations, messages, events, answers.
//!
//! They hold what the words say and decide nothing, but for three tests that every layer shares:
//! `Name::read`, `Identity::read` and `Policy::check`. Contracts see a list or a text as the list of what it holds.
#![tactic(auto)]

mod answers;
mod bytes;
mod calls;
mod changes;
mod codes;
mod events;
mod ids;
mod items;
pub mod limits;
mod memory;
mod messages;
mod names;
mod notices;
mod operations;
mod policies;
mod sequence;
mod spans;
mod statuses;
mod waits;

pub use answers::{Access, Anchor, Answer, AuxRecord, OpenedBook, Shown};
pub use bytes::{Blob, Text};
pub use calls::Call;
pub use changes::Change;
pub use codes::{CallError, Code};
pub use events::{DeviceEvent, EngineEvent, Event, PeerEvent, ProviderEvent};
pub use ids::{Handle, ItemId, Key, Rid, Round, Token, Usn, Version, WaitId};
pub use items::{Kind, ListedItem, Pin, Reach, SeenPath};
pub use memory::{OutOfMemory, no_such_state};
pub use messages::{Entry, Reply, Request, Why};
pub use names::{Identity, Name, is_name};
pub use notices::{Frame, Notes, Notice, OperationAnswer, Sent};
pub use operations::{NewItem, Operation};
pub use policies::{Choice, Class, Hydration, Mode, Policy, Population};
pub use sequence::Sequence;
pub use spans::{Span, blocks_of};
pub use statuses::Status;
pub use waits::{Ask, AskKind, Cause, End, WaitKind};
