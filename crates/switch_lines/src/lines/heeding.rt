//! All that a line tells.
ghost use Rattle.std.specs.Prelude.{◌≡◌, ◌<◌, length, slice_get};
ghost use Rattle.std.specs.Option.{option_to_list};
ghost use Rattle.packet_end.specs.PacketEnd.{without_first_note};
ghost use Rattle.packet_channel.specs.NoteView.{note_of, maybe_note};
ghost use Rattle.switch_lines.specs.Lines.{changed};
ghost use Rattle.switch_lines.specs.NewJoins.{joins_of_note, joins_heeded};
ghost use Rattle.switch_lines.specs.ByPlace.{notes_on};
ghost use Rattle.switch_lines.specs.Switch.{heed, notes_heeded, with_end};

use crate::lines::Lines;
use address_routes::Routes;
use packet_layer::LayerNote;
use switch_joins::{NewJoin, SwitchChannel};

impl Lines {
    /// Heeds all that the end of a line tells, and answers the first call that is joined then, if one is.
    pub(super) fn heed_line(&mut self, routes: &Routes, line: usize) -> Option<NewJoin>
        requires { line < length self.old }
        ensures join { result ≡ slice_get (joins_heeded routes.now line self.old) 0 }
        ensures lines { self.new ≡ notes_heeded routes.now line self.old }
    {
        let mut joined = None;
        for _ in 0..self.waiting_notes(line) {
            if let Some(note) = self.notes(line) {
                let join = self.heed(routes, line, note);
                joined = joined.or(join);
            }
        }
        joined
    }

    /// What a note of a line makes of the joins. Answers the call that it joins, if it does.
    fn heed(&mut self, routes: &Routes, line: usize, note: LayerNote) -> Option<NewJoin>
        requires { line < length self.old }
        ensures join { option_to_list result ≡ joins_of_note routes.now line (note_of note) self.old }
        ensures lines { self.new ≡ heed routes.now line (note_of note) self.old }
    {
        match note {
            LayerNote::Incoming(channel, call) => {
                return self.answer(routes, SwitchChannel { line, channel }, &call.data());
            }
            LayerNote::Connected(channel) => self.tell_connected(SwitchChannel { line, channel }),
            LayerNote::Closed {
                channel,
                cause,
                diagnostic,
                reason,
            } => self.tell_closed(SwitchChannel { line, channel }, cause, diagnostic, reason),
            LayerNote::Reset {
                channel,
                cause,
                diagnostic,
                reason,
            } => self.tell_reset(SwitchChannel { line, channel }, cause, diagnostic, reason),
            LayerNote::InterruptConfirmed(channel) => self.tell_confirmed(SwitchChannel {
                line,
                channel,
            }),
            LayerNote::Covered { channel, count } => {
                self.tell_covered(SwitchChannel { line, channel }, count);
            }
        }
        None
    }

    /// How many notes of a line wait.
    fn waiting_notes(&self, line: usize) -> usize
        requires { line < length self.now }
        ensures { result ≡ length (notes_on self.now line) }
    {
        self.lines[line].waiting_notes()
    }

    /// Takes the next note of a line, if there is one.
    fn notes(&mut self, line: usize) -> Option<LayerNote>
        requires { line < length self.old }
        ensures note { maybe_note result ≡ slice_get (notes_on self.old line) 0 }
        ensures lines { self.new ≡ changed line (with_end without_first_note) self.old }
    {
        self.lines[line].notes()
    }
}
