ghost use Rattle.std.specs.Prelude.{◌≡◌, ◌∷◌};
ghost use Rattle.vault_core.specs.Parts.{is_start};
ghost use Rattle.vault_core.specs.Coming.{seen_action};
ghost use Rattle.vault_core.specs.Rest.{moves_from, move_actions, actions_after};

use crate::action::Action;

/// The move that an append makes next.
#[derive(Clone, Copy)]
pub enum Move {
    Body,
    BodySync,
    Gate,
    GateSync,
}

impl Move {
    /// The move as an action.
    pub fn action(self) -> Action
        ensures { moves_from self ≡ seen_action result ∷ actions_after self }
    {
        match self {
            Move::Body => Action::WriteBody,
            Move::BodySync => Action::SyncBody,
            Move::Gate => Action::WriteGate,
            Move::GateSync => Action::SyncGate,
        }
    }

    /// The move behind it; none behind the fourth.
    pub fn next(self) -> Option<Move>
        ensures { move_actions result ≡ actions_after self }
    {
        match self {
            Move::Body => Some(Move::BodySync),
            Move::BodySync => Some(Move::Gate),
            Move::Gate => Some(Move::GateSync),
            Move::GateSync => None,
        }
    }
}

/// Where a job is among the files that it works on: at this stripe or round of this object, which has so
/// many. The files behind it begin at this place.
#[derive(Clone, Copy)]
pub struct Spot {
    pub object: u64,
    pub turn: u32,
    pub turns: u32,
    pub behind: usize,
}

/// What a job does next. It stands for the list of all actions that the job has not yet made.
#[derive(Clone, Copy)]
pub enum Cursor {
    /// A move of the first append of a put, a drop or an audit.
    Opening { at: Move },
    /// A store, a fetch or an ask of this provider.
    Calling { spot: Spot, provider: u32 },
    /// The work on a stripe.
    Working { spot: Spot },
    /// A store of what the work on a stripe gave, on this flagged provider.
    Rewriting { spot: Spot, provider: u32 },
    /// A move of the last append of a put, an audit or a repair.
    Closing { at: Move },
    /// The removal of an object from this provider.
    Removing { object: u64, provider: u32 },
    /// The end.
    Ending,
}

impl Cursor {
    /// The cursor is at the first move of an append.
    pub fn is_start(self) -> bool
        ensures { result ≡ is_start self }
    {
        matches!(
            self,
            Cursor::Opening { at: Move::Body } | Cursor::Closing { at: Move::Body }
        )
    }
}
