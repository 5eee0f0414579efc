//! The provider.

ghost use Rattle.std.specs.Prelude.{◌≡◌};
ghost use Rattle.cf_model.specs.Callbacks.{planned_on, with_key};

use crate::plan_steps::carry_out;
use cf_base::{Key, Operation, OutOfMemory};
use cf_provider::{Callback, Port, Provider};
use std::alloc::Global;
use std::collections::VecDeque;
use std::marker::Model;

/// An operation that a script planned. Where `own` is set it answers the callback inside which it is done, whatever key it
/// names.
#[derive(Drop)]
pub struct Planned {
    pub own: bool,
    pub operation: Operation,
}

impl Model for Planned {
    ghost use Rattle.std.specs.Prelude.{Bool};
    ghost use Rattle.cf_base.specs.declared.operations.Operation.{Operation};

    ghost Value = { Bool × Operation };

    ghost view = { λ p. (p.own, p.operation) };
}

// The same operation of another ask.
fn with_key(own: Key, operation: Operation) -> Operation
    ensures { result ≡ with_key own operation }
{
    match operation {
        Operation::Transfer { key: _, at, bytes } => Operation::Transfer {
            key: own,
            at,
            bytes,
        },
        Operation::Refuse {
            key: _,
            span,
            status,
        } => Operation::Refuse {
            key: own,
            span,
            status,
        },
        Operation::Retrieve { key: _, span } => Operation::Retrieve { key: own, span },
        Operation::Ack { key: _, span, good } => Operation::Ack {
            key: own,
            span,
            good,
        },
        Operation::Restart { key: _ } => Operation::Restart { key: own },
        Operation::Entries { key: _, list, good } => Operation::Entries {
            key: own,
            list,
            good,
        },
        Operation::AckDehydrate { key: _, good } => Operation::AckDehydrate { key: own, good },
    }
}

impl Planned {
    // What is done inside the callback of the ask with this key.
    fn on(self, own: Key) -> Operation
        ensures { result ≡ planned_on own self }
    {
        if self.own {
            return with_key(own, self.operation);
        }
        self.operation
    }
}

/// The provider that does what a script planned.
#[derive(Drop)]
pub struct Scripted {
    planned: VecDeque<Planned>,
}

impl Model for Scripted {
    ghost use Rattle.std.specs.Prelude.{Bool, List};
    ghost use Rattle.cf_base.specs.declared.operations.Operation.{Operation};

    ghost Value = { List (Bool × Operation) };

    ghost view = { λ s. s.planned.items };
}

impl Scripted {
    ghost use Rattle.std.specs.Prelude.{◌++◌, ◌∷◌, [], IfNone, IfSome, OnErr, OnOk};

    /// Nothing is planned. Takes no memory yet.
    pub fn new(alloc: Global) -> Scripted
        ensures { result ≡ [] }
    {
        Scripted {
            planned: VecDeque::new(alloc),
        }
    }

    /// Plans an operation after those that are planned. Without memory the plan is as before.
    pub fn plan(&mut self, planned: Planned) -> Result<(), OutOfMemory>
        ensures ok { OnOk result (self.new ≡ self.old ++ planned ∷ []) }
        ensures err { OnErr result (self.new ≡ self.old) }
    {
        self.planned.push_back(planned)?;
        Ok(())
    }

    /// Forgets the plan, as a crash does.
    pub fn clear(&mut self)
        ensures { self.new ≡ [] }
    {
        self.planned.clear();
    }

    // The first of the plan, which is left out then.
    fn next(&mut self) -> Option<Planned>
        ensures some { IfSome result (λ p. self.old ≡ p ∷ self.new) }
        ensures none { IfNone result ((self.old ≡ []) × (self.new ≡ [])) }
    {
        self.planned.pop_front()
    }
}

impl Provider for Scripted {
    ghost use Rattle.cf_provider_script.specs.Lines.{Answers};

    ghost answers = { Answers };

    fn on_callback<P: Port>(&mut self, call: &Callback, port: &mut P) -> Result<(), OutOfMemory> {
        while let Some(planned) = self.next() {
            let may_go_on = carry_out(planned.on(call.ask.key), port)?;
            if !may_go_on {
                self.clear();
                return Ok(());
            }
        }
        Ok(())
    }
}
