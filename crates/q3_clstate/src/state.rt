//! What a client has of the messages that were applied.
//! - Rules: "held snapshots of a client", "snapshot whose base is not held", "gaps in command numbers", "config commands at the
//!   client", "what a gamestate resets".
//! - Engine: `CL_ParseServerMessage`, `CL_ParseCommandString`, `CL_ParseSnapshot` and `CL_ParseGamestate` (cl_parse.c).
//! - Ours: which bases are held; that a snapshot without its base changes nothing; that config commands change strings as
//!   messages are applied; that the last text becomes empty where a gamestate's command number isn't the last executed.

ghost use Rattle.std.specs.Prelude.{◌≡◌, ◌<◌, ◌≤◌, option_map, slice_index_or, None, IfOk, IfSome};
ghost use Rattle.q3_entity.specs.Entities.{Rises, run_of};
ghost use Rattle.q3_rings.specs.Loans.{snapshot_of, head_of, head_from};
ghost use Rattle.q3_rings.specs.Rings.{AreHeldSnapshots, view_at};
ghost use Rattle.q3_clstate.specs.Standing.{IsApplied};
ghost use Rattle.q3_clstate.specs.Kept.{state_by};
ghost use Rattle.q3_clstate.specs.State.{new_state, apply_at, state_after_message, answered, heard_in};

use crate::applied::{Applied, Log, SnapOutcome};
use crate::contents::Contents;
use crate::holding::Holding;
use crate::laws;
use crate::settings::MapSettings;
use q3_bits::NoMemory;
use q3_config::Configs;
use q3_entity::Baselines;
use q3_entity::laws::list_rises;
use q3_profile::Profile;
use q3_rings::{Held, NoBase, Rings, SnapView};
use q3_svmsg::{Illegible, Section, ServerMessage, read_server_message};
use q3_text::Text;
use q3_window::Incoming;
use std::alloc::Global;
use std::marker::Model;

/// What the messages that were applied left. No call but `new` and `of` takes memory.
#[derive(Drop)]
pub struct ClState {
    /// A copy of the one by which messages are read.
    profile: Profile,

    // of the messages that were applied
    /// The number of the last, 0 for none.
    number: u32,
    /// The server's commands that were executed.
    incoming: Incoming,
    /// Whether a gamestate was among them.
    has_game: bool,
    /// The client's slot that the last gamestate told, 0 before one.
    slot: u32,
    /// The checksum feed that it told, 0 before one.
    feed: u32,
    /// The config strings with the id of the map.
    settings: MapSettings,
    /// What others are read against: the snapshots that are held, and the baselines.
    holding: Holding,

    /// A place to read a message into.
    message: ServerMessage,
}

impl Model for ClState {
    ghost use Rattle.q3_clstate.specs.State.{AppliedState};

    ghost Value = { AppliedState };

    ghost use Rattle.q3_clstate.specs.Kept.{state_in, Stands};

    ghost view = { state_in };

    ghost invariant = { Stands };
}

impl ClState {
    /// No message was applied. The profile's ring for a client's entities has 512 to 65,536 places. `Err` is want of memory.
    pub fn new(alloc: Global, profile: &Profile) -> Result<ClState, NoMemory>
        requires least { 512 ≤ profile.now.parse_ring }
        requires most { profile.now.parse_ring ≤ 65536 }
        ensures { IfOk result (λ state. state ≡ new_state profile.now) }
    {
        laws::apply_stays();
        Ok(ClState {
            profile: profile.copy()?,
            number: 0,
            incoming: Incoming::new(),
            has_game: false,
            slot: 0,
            feed: 0,
            settings: MapSettings::new(alloc)?,
            holding: Holding::new(alloc, profile.parse_ring)?,
            message: ServerMessage::new(alloc)?,
        })
    }

    /// A state of these contents, by this profile. `Err` is want of memory.
    pub fn of(alloc: Global, profile: &Profile, contents: Contents) -> Result<ClState, NoMemory>
        requires applied { IsApplied (state_by profile.now contents) }
        requires none { contents.rings.begun ≡ None }
        ensures { IfOk result (λ state. state ≡ state_by profile.now contents) }
    {
        let own = profile.copy()?;
        let message = ServerMessage::new(alloc)?;
        Ok(ClState {
            profile: own,
            number: contents.number,
            incoming: contents.incoming,
            has_game: contents.has_game,
            slot: contents.slot,
            feed: contents.feed,
            settings: MapSettings::of(contents.configs, contents.id),
            holding: Holding {
                rings: contents.rings,
                baselines: contents.baselines,
            },
            message,
        })
    }

    /// Applies a message of a number, any bytes, and tells which of its commands it executed: those above the last one executed,
    /// also across a gap. `Err` is why it isn't legible; nothing changes then, and nothing was executed. The commands that are
    /// executed change the config strings, one after the other, and a change of string 1 sets the map's id where it tells one.
    ///
    /// A gamestate ends what was held before: its id, slot, feed, config strings and baselines take the place of others, and the
    /// commands up to its number, and no others, count as executed.
    ///
    /// Of a snapshot the answer tells the first of these that fits:
    /// - `NoSnap`: the message has none.
    /// - `Stale`: the number isn't above the newest accepted since the last gamestate. All that was held stays.
    /// - `Skipped`: its base isn't held, and why. All that was held stays.
    /// - `Accepted`: it is held from now on, and is the newest.
    pub fn apply(
        &mut self,
        number: u32,
        message: &[u8],
        log: &mut Log,
    ) -> Result<Applied, Illegible>
        ensures state { self.new ≡ state_after_message self.old (apply_at self.old number message.now) }
        ensures answer { result ≡ answered (apply_at self.old number message.now) }
        ensures log { log.new.commands ≡ heard_in (apply_at self.old number message.now) }
    {
        log.commands.clear();
        list_rises();
        laws::apply_stays();
        read_server_message(
            &self.profile,
            number,
            message,
            &self.holding,
            &mut self.message,
        )?;
        self.number = number;
        self.incoming
            .execute(self.message.commands.as_slice(), &mut log.commands);
        self.settings.execute(log.commands.as_slice());
        let snap = match self.message.section {
            Section::Nothing => SnapOutcome::NoSnap,
            Section::Game => {
                self.incoming.jump(self.message.command);
                self.has_game = true;
                self.slot = self.message.slot;
                self.feed = self.message.feed;
                self.settings.start(&mut self.message);
                self.holding.start(&mut self.message);
                return Ok(Applied {
                    number,
                    game: true,
                    snap: SnapOutcome::NoSnap,
                });
            }
            Section::Snap { base, held: true } => self.holding.accept(number, base, &self.message),
            Section::Snap { base, held: false } => self.holding.skip(number, base),
        };
        Ok(Applied {
            number,
            game: false,
            snap,
        })
    }

    /// The profile by which messages are read.
    pub fn profile(&self) -> &Profile
        ensures profile { result.now ≡ self.now.profile }
        ensures stands { IsApplied self.now }
    {
        &self.profile
    }

    /// The number of the last message applied, 0 for none.
    pub fn number(&self) -> u32
        ensures { result ≡ self.now.number }
    {
        self.number
    }

    /// The server's commands that were executed.
    pub fn incoming(&self) -> &Incoming
        ensures { result.now ≡ self.now.executed }
    {
        &self.incoming
    }

    /// The number of the last server command executed, 0 for none.
    pub fn executed(&self) -> u32
        ensures { result ≡ self.now.executed.executed }
    {
        self.incoming.executed()
    }

    /// The text of the last server command executed, empty for none, and after a gamestate with another command's number.
    pub fn last_text(&self) -> &Text
        ensures { result.now ≡ self.now.executed.last }
    {
        self.incoming.last()
    }

    /// Whether a gamestate was applied.
    pub fn has_game(&self) -> bool
        ensures { result ≡ self.now.has_game }
    {
        self.has_game
    }

    /// The id of the map, 0 before a gamestate or a change of string 1 told one.
    pub fn id(&self) -> u32
        ensures { result ≡ self.now.id }
    {
        self.settings.id()
    }

    /// The client's slot that the last gamestate told, 0 before one.
    pub fn slot(&self) -> u32
        ensures { result ≡ self.now.slot }
    {
        self.slot
    }

    /// The checksum feed that the last gamestate told, 0 before one.
    pub fn feed(&self) -> u32
        ensures { result ≡ self.now.feed }
    {
        self.feed
    }

    /// The config strings: those of the last gamestate, with the changes that commands made.
    pub fn configs(&self) -> &Configs
        ensures { result.now ≡ self.now.strings }
    {
        self.settings.configs()
    }

    /// The baselines of the last gamestate.
    pub fn baselines(&self) -> &Baselines
        ensures { result.now ≡ self.now.baselines }
    {
        &self.holding.baselines
    }

    /// The snapshots that are held.
    pub fn rings(&self) -> &Rings
        ensures { result.now.held ≡ self.now.held }
    {
        &self.holding.rings
    }

    /// Lends the snapshot of a number, if it is held.
    pub fn view(&self, number: u32) -> Option<SnapView<'_>>
        ensures view { option_map snapshot_of result ≡ view_at self.now.held number }
        ensures rises { IfSome result (λ view. Rises (run_of view.entities)) }
    {
        self.holding.rings.view(number)
    }

    /// Lends the head of the snapshot in a place below 32, and its age, also where its entities are gone. `None` comes
    /// exactly where none stands there.
    pub fn held(&self, place: u8) -> Option<Held<'_>>
        requires { place < 32 }
        ensures { option_map head_of result ≡ option_map head_from (slice_index_or self.now.held.places place None) }
    {
        self.holding.rings.held(place)
    }

    /// The newest number accepted since the last gamestate, 0 for none.
    pub fn newest(&self) -> u32
        ensures newest { result ≡ self.now.held.newest }
        ensures held { AreHeldSnapshots self.now.held }
        ensures stands { IsApplied self.now }
    {
        self.holding.rings.newest()
    }
}
