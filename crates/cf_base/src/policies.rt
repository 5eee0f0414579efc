//! How a provider wants its files handled.

ghost use Rattle.std.specs.Prelude.{◌≡◌, IfErr, OnErr, OnOk, true, false};
ghost use Rattle.cf_base.specs.Policies.{is_allowed};

use crate::codes::Code;

/// How much of a file a read brings here (CF_HYDRATION_POLICY).
#[derive(Clone, Copy, PartialEq, Eq)]
pub enum Hydration {
    /// The blocks that the read needs.
    Partial,
    /// The blocks that the read needs, and then the rest in the background.
    Progressive,
    /// The whole file before the read ends.
    Full,
    /// The whole file, which is never dehydrated.
    AlwaysFull,
}

/// When the entries of a directory come here (CF_POPULATION_POLICY).
#[derive(Clone, Copy, PartialEq, Eq)]
pub enum Population {
    /// Entry by entry. Left out: it is refused.
    Partial,
    /// All of them, when the directory is listed.
    Full,
    /// They are there from the start.
    AlwaysFull,
}

/// The policies and modifiers that a provider registers.
#[derive(Clone, Copy)]
pub struct Policy {
    pub hydration: Hydration,
    pub population: Population,
    /// VALIDATION_REQUIRED: a read needs bytes that were validated.
    pub validate: bool,
    /// ALLOW_FULL_RESTART_HYDRATION: the provider may let a hydration start again.
    pub restart: bool,
    /// AUTO_DEHYDRATION_ALLOWED: room may be made by dehydrating files.
    pub auto: bool,
}

/// Which command runs: the sync engine, or a scripted provider without one.
#[derive(Clone, Copy)]
pub enum Mode {
    Replay,
    Filter,
}

/// The ranges of a file that can be asked for.
#[derive(Clone, Copy)]
pub enum Class {
    OnDisk,
    Validated,
    Modified,
}

/// What a power cut leaves of the bytes that were written since the last sync.
#[derive(Clone, Copy)]
pub enum Choice {
    /// All of them.
    Keep,
    /// None of them.
    Drop,
    /// A mixture that the seed determines.
    Mix(u64),
}

impl Policy {
    /// Whether the mode has these policies. Refused as BadPolicy: PARTIAL population in both modes, and in `Replay`
    /// ALWAYS_FULL hydration, `validate` and `restart`.
    pub fn check(&self, mode: Mode) -> Result<(), Code>
        ensures ok { OnOk result (is_allowed mode self.now ≡ true) }
        ensures bad { OnErr result (is_allowed mode self.now ≡ false) }
        ensures code { IfErr result (λ e. e ≡ Code.BadPolicy) }
    {
        let left_out = match mode {
            Mode::Replay => {
                self.hydration == Hydration::AlwaysFull || self.validate || self.restart
            }
            Mode::Filter => false,
        };
        if left_out || self.population == Population::Partial {
            return Err(Code::BadPolicy);
        }
        Ok(())
    }
}
