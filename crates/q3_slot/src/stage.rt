//! How far a client came on the server's map. Keeps the rule "client states: connected, primed, active", the engine's
//! `clientState_t` (server.h).

ghost use Rattle.std.specs.Prelude.{◌≡◌};
ghost use Rattle.q3_slot.specs.Slot.{game_of};
ghost use Rattle.q3_slot.specs.Slot as spec;

/// How far a client came.
///
///     join, begin_map               prime             enter
///   -----------------> Connected ---------> Primed ---------> Active
///
/// - `join` (of `Slot`): a client is connected at first.
/// - `begin_map`: with a new map it is connected, however far it came on the last one.
/// - `prime`: a gamestate that was owed is begun, and it is primed. Where that got lost, one is owed again, and `prime` leaves it
///   primed, by the new one's number. None becomes owed to an active client; but one that is owed as it enters stays so, and then
///   `prime` leads back from `Active`. In a closed replay that never comes.
/// - `enter`: while it was primed a message of the map with moves came, and it is active.
#[derive(Clone, Copy, Debug, PartialEq, Eq)]
pub enum ClientStage {
    /// No gamestate of the map was begun for it.
    Connected,
    /// One was begun, the last of them as the message of this number.
    Primed { game: u32 },
    /// It plays. The last gamestate of the map that was begun for it is the message of this number.
    Active { game: u32 },
}

impl ClientStage {
    /// Whether the client plays.
    pub fn is_active(self) -> bool
        ensures { result ≡ spec.is_active self }
    {
        match self {
            ClientStage::Active { .. } => true,
            _ => false,
        }
    }

    /// Whether no gamestate of the map was begun for it.
    pub fn is_connected(self) -> bool
        ensures { result ≡ spec.is_connected self }
    {
        match self {
            ClientStage::Connected => true,
            _ => false,
        }
    }

    /// The message number of the last gamestate of the map that was begun for it, if one was.
    pub fn game(self) -> Option<u32>
        ensures { result ≡ game_of self }
    {
        match self {
            ClientStage::Connected => None,
            ClientStage::Primed { game } | ClientStage::Active { game } => Some(game),
        }
    }
}
