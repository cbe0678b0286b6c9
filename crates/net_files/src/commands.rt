//! The commands of a script, in order.
ghost use Rattle.std.specs.Prelude.{◌≡◌, ◌==◌, ◌++◌, [], ◌∷◌, OnOk, option_map};
ghost use Rattle.net_files.specs.Commands.{Keys as KeysView, Event as EventView, Flow as FlowView};
ghost use Rattle.net_files.specs.Commands.{Tick as TickView, Trace as TraceView, Check as CheckView};
ghost use Rattle.net_files.specs.Answers.{GivesOrWants};
ghost use Rattle.net_files.specs.Texts.{octets_of};

use crate::words::{LineFault, add_text};
use net_events::Event;
use std::alloc::{AllocError, Global};
use std::marker::Model;

/// Keys that are typed at a terminal of a PAD, one after the other.
#[derive(Clone, Copy)]
pub struct Keys<'a> {
    pub node: usize,
    pub terminal: u16,
    pub octets: &'a [u8],
}

/// What a line of a script asks for.
#[derive(Drop)]
pub enum ScriptCommand<'a> {
    /// These keys are typed.
    Keys(Keys<'a>),
    /// This event happens.
    Event(&'a Event),
    /// Frames are delivered, pass after pass over the lines, until a pass brings none.
    Flow,
    /// So many ticks go by, and then each timer that is due expires.
    Tick(u16),
    /// From here on each frame that is put is printed, or none is.
    Trace(bool),
    /// It is printed whether in each call what each end took matches what the other one sent.
    Check,
}

// What stands of a command in its place among the others: of keys how many octets they are, and of an event only that
// it is one.
#[derive(Clone, Copy)]
enum Entry {
    Keys {
        node: usize,
        terminal: u16,
        count: usize,
    },
    Event,
    Flow,
    Tick(u16),
    Trace(bool),
    Check,
}

/// The commands of a script, in order. All events lie in one list, and so do the octets of all keys.
#[derive(Drop)]
pub struct Commands {
    entries: Vec<Entry>,
    events: Vec<Event>,
    octets: Vec<u8>,
}

impl Model for Commands {
    ghost use Rattle.std.specs.Prelude.{List};
    ghost use Rattle.net_files.specs.Commands.{CommandView, read_commands, AreKept};

    ghost Value = { List CommandView };

    ghost view = { λ c. read_commands c.entries.items c.events.items c.octets.items };

    ghost invariant = { λ c. AreKept c.entries.items c.events.items c.octets.items };
}

impl Commands {
    /// No commands.
    pub(crate) fn new(alloc: Global) -> Commands
        ensures { result ≡ [] }
    {
        Commands {
            entries: Vec::new(alloc),
            events: Vec::new(alloc),
            octets: Vec::new(alloc),
        }
    }

    /// The commands, one after the other.
    pub fn iter(&self) -> CommandsIter<'_>
        ensures { result ≡ self.now }
    {
        CommandsIter {
            entries: self.entries.as_slice(),
            events: self.events.as_slice(),
            octets: self.octets.as_slice(),
        }
    }

    /// Adds the keys that a text spells, which are typed at a terminal. `NotACommand` where it spells none.
    pub(crate) fn add_keys(
        &mut self,
        node: usize,
        terminal: u16,
        text: &[u8],
    ) -> Result<(), LineFault>
        ensures { GivesOrWants (λ _. self.new) result
            (option_map (λ octets. self.old ++ KeysView node terminal octets ∷ []) (octets_of text.now)) }
    {
        self.entries.reserve(1)?;
        let before = self.octets.len();
        if let Err(fault) = add_text(&mut self.octets, text) {
            self.octets.truncate(before);
            return Err(fault);
        }
        self.entries.push_reserved(Entry::Keys {
            node,
            terminal,
            count: self.octets.len() - before,
        });
        Ok(())
    }

    /// Adds an event.
    pub(crate) fn add_event(&mut self, event: Event) -> Result<(), AllocError>
        ensures { OnOk result (self.new ≡ self.old ++ EventView event ∷ []) }
    {
        self.entries.reserve(1)?;
        self.events.reserve(1)?;
        self.events.push_reserved(event);
        self.entries.push_reserved(Entry::Event);
        Ok(())
    }

    /// Adds that frames flow.
    pub(crate) fn add_flow(&mut self) -> Result<(), AllocError>
        ensures { OnOk result (self.new ≡ self.old ++ FlowView ∷ []) }
    {
        self.entries.reserve(1)?;
        self.entries.push_reserved(Entry::Flow);
        Ok(())
    }

    /// Adds that so many ticks go by.
    pub(crate) fn add_tick(&mut self, ticks: u16) -> Result<(), AllocError>
        ensures { OnOk result (self.new ≡ self.old ++ TickView ticks ∷ []) }
    {
        self.entries.reserve(1)?;
        self.entries.push_reserved(Entry::Tick(ticks));
        Ok(())
    }

    /// Adds that frames are traced from here on, or not.
    pub(crate) fn add_trace(&mut self, traces: bool) -> Result<(), AllocError>
        ensures { OnOk result (self.new ≡ self.old ++ TraceView traces ∷ []) }
    {
        self.entries.reserve(1)?;
        self.entries.push_reserved(Entry::Trace(traces));
        Ok(())
    }

    /// Adds that the calls are checked.
    pub(crate) fn add_check(&mut self) -> Result<(), AllocError>
        ensures { OnOk result (self.new ≡ self.old ++ CheckView ∷ []) }
    {
        self.entries.reserve(1)?;
        self.entries.push_reserved(Entry::Check);
        Ok(())
    }
}

/// Goes over the commands of a script.
#[derive(Drop)]
pub struct CommandsIter<'a> {
    entries: &'a [Entry],
    events: &'a [Event],
    octets: &'a [u8],
}

impl<'a> Model for CommandsIter<'a> {
    ghost use Rattle.std.specs.Prelude.{List};
    ghost use Rattle.net_files.specs.Commands.{CommandView, read_commands, AreKept};

    ghost Value = { List CommandView };

    ghost view = { λ i. read_commands i.entries.now i.events.now i.octets.now };

    ghost invariant = { λ i. AreKept i.entries.now i.events.now i.octets.now };
}

impl<'a> Iterator for CommandsIter<'a> {
    type Item = ScriptCommand<'a>;

    ghost use Rattle.std.specs.Iterator.{YieldsFirstBy, item_count};
    ghost use Rattle.net_files.specs.Commands.{view_of};

    ghost next_gives = { YieldsFirstBy view_of (λ commands. commands) };

    ghost remaining = { item_count (λ commands. commands) };

    fn next(&mut self) -> Option<ScriptCommand<'a>> {
        let (entry, entries) = self.entries.split_first()?;
        let command = match *entry {
            Entry::Keys {
                node,
                terminal,
                count,
            } => {
                let (octets, others) = self.octets.split_at(count);
                self.octets = others;
                ScriptCommand::Keys(Keys {
                    node,
                    terminal,
                    octets,
                })
            }
            Entry::Event => {
                let (event, others) = self.events.split_first()?;
                self.events = others;
                ScriptCommand::Event(event)
            }
            Entry::Flow => ScriptCommand::Flow,
            Entry::Tick(ticks) => ScriptCommand::Tick(ticks),
            Entry::Trace(traces) => ScriptCommand::Trace(traces),
            Entry::Check => ScriptCommand::Check,
        };
        self.entries = entries;
        Some(command)
    }
}
