//! The switch and its events.
ghost use Rattle.std.specs.Prelude.{◌≡◌, ◌≤◌, ◌<◌, ◌∷◌, [], length, MatchResult, slice_get};
ghost use Rattle.std.specs.Bool.{OnTrue, OnFalse};
ghost use Rattle.std.specs.Option.{option_map, option_to_list};
ghost use Rattle.switch_lines.specs.Lines.{joined_at};
ghost use Rattle.switch_lines.specs.Making.{made, IsConfig, MadeNot};
ghost use Rattle.switch_lines.specs.NewJoins.{new_joins};
ghost use Rattle.switch_lines.specs.Switch.{on_frame, on_timer, timer_runs, relink, restart, elapse};
ghost use Rattle.switch_lines.specs.Switch.{without_frame, frames_on, due_on};
ghost use Rattle.packet_end.specs.PacketEnd.{received, after_timer};
ghost use Rattle.switch_laws.specs.Events.{KeepsLegs};
ghost use Rattle.switch_laws.specs.Events.Event.{Arrives, Expires, SetsUp, Restarts, Elapses, Departs};
ghost use Rattle.switch_laws.specs.Isolated.{LeavesOthers};
ghost use Rattle.switch_laws.specs.Joined.{HasRelayedAll};
ghost use Rattle.switch_laws.specs.Offers.{EndsKeepNothingBack};
ghost use Rattle.switch_laws.specs.Pairs.{JoinsByRoute, JoinsNone, noted_in};
ghost use Rattle.switch_laws.specs.Sent.{AreAllSent};
ghost use Rattle.switch_laws.specs.Steps.Happening.{Brings, RunsOut, Relinks};

use address_routes::Routes;
use frame_codec::FrameBuf;
use link_timers::TimerId;
use packet_end::EndFault;
use std::alloc::Global;
use std::marker::Model;
use std::ops::Deref;
use switch_lines::{Lines, MOST_LINES, NewJoin, SwitchChannel, SwitchConfig, check_lines};

/// A switch: the DCE or the DTE on each of up to 64 lines, of which it joins calls (X.25 3 to 5). A call that comes in
/// on one line goes on to the line of its route, and all that happens on the one is relayed to the other. A line
/// without an address is a trunk: a switch is at its other end too.
///
/// Each call that changes the switch, but `elapse` and `out`, is one event. Its frames are then taken by `out`. After
/// the next event they are gone, as if the line had lost them. What asks about the lines, without a change, is a call of
/// [`Lines`].
#[derive(Drop)]
pub struct Switch {
    routes: Routes,
    lines: Lines,
}

impl Model for Switch {
    ghost use Rattle.switch_lines.specs.Switch.{Switch as SwitchValue};
    ghost use Rattle.std.specs.FinMap as map;
    ghost use Rattle.address_routes.specs.Routes.{by_digits};
    ghost use Rattle.std.specs.Coded.{codes, coded_list, coded_ℕ};

    ghost Value = { SwitchValue };

    ghost coded = { Prim.hlevel (codes, map.code {R = by_digits} (coded_list coded_ℕ) coded_ℕ) };

    ghost use Rattle.x25_switch.specs.SwitchView.{switch_of, HoldsWithLegs};

    ghost view = { switch_of };

    ghost invariant = { HoldsWithLegs };
}

impl Deref for Switch {
    type Target = Lines;

    fn deref(&self) -> &Lines
        ensures { result.now ≡ self.now.lines }
    {
        &self.lines
    }
}

impl Switch {
    /// The switch at its lines, which are new: each link is started, and there is no call. It takes all the memory that
    /// it ever uses.
    ///
    /// `BadConfig` comes if there is no line or more than 64, or one is standing or has a parameter out of its range,
    /// and then `OutOfMemory` for want of memory.
    pub fn new(alloc: Global, config: SwitchConfig<'_>) -> Result<Switch, EndFault>
        ensures { MatchResult result
            (λ switch. IsConfig config.entry.lines.now × (switch ≡ made config.entry.routes config.entry.lines.now))
            (λ fault. MadeNot config.entry.lines.now fault) }
    {
        let SwitchConfig { lines, routes } = config;
        check_lines(lines)?;
        let lines = Lines::new(alloc, lines)?;
        Ok(Switch { routes, lines })
    }

    /// How many lines there are, at most 64.
    pub fn lines(&self) -> usize
        ensures count { result ≡ length self.now.lines }
        ensures most { result ≤ MOST_LINES }
    {
        self.lines.len()
    }

    /// Takes the octets of a frame that a line brings, and answers the call that it joined, if it did. A frame joins no
    /// more than one.
    ///
    /// Each join of two other lines is as it was, unless one of the two was set up again, since a fifth packet came to
    /// be owed there. After the event nothing waits that the other leg or the link takes. Each new join is by its
    /// route. A packet with D = 1 was released only if all that it made due was covered there. On each line all frames
    /// of the event wait.
    pub fn on_frame(&mut self, line: usize, octets: &[u8]) -> Option<NewJoin>
        requires { line < length self.old.lines }
        ensures join { option_to_list result ≡ new_joins line octets.now self.old }
        ensures switch { self.new ≡ on_frame line octets.now self.old }
        ensures others { LeavesOthers line (Brings octets.now) self.old self.new }
        ensures relayed { HasRelayedAll self.new.lines }
        ensures nothing_kept_back { EndsKeepNothingBack self.new.lines }
        ensures routes { JoinsByRoute self.old.routes line (noted_in line (λ e. received e octets.now) self.old)
            self.old.lines self.new.lines }
        ensures legs { KeepsLegs (Arrives line octets.now) self.old self.new }
        ensures frames { AreAllSent line (Brings octets.now) self.old self.new }
    {
        self.lines.begin();
        let joined = self.lines.on_frame(&self.routes, line, octets);
        self.lines.finish(&self.routes, line);
        joined
    }

    /// Takes an expiry of a timer of a line, and answers whether the timer ran. If it did not, the expiry changes
    /// nothing.
    pub fn on_timer(&mut self, line: usize, id: TimerId) -> bool
        requires { line < length self.old.lines }
        ensures ran { result ≡ timer_runs (slice_get self.old.lines line) id }
        ensures switch { self.new ≡ on_timer line id self.old }
        ensures same { OnFalse result (self.new ≡ self.old) }
        ensures others { LeavesOthers line (RunsOut id) self.old self.new }
        ensures relayed { HasRelayedAll self.new.lines }
        ensures nothing_kept_back { OnTrue result (EndsKeepNothingBack self.new.lines) }
        ensures routes { JoinsByRoute self.old.routes line (noted_in line (λ e. after_timer e id) self.old)
            self.old.lines self.new.lines }
        ensures legs { KeepsLegs (Expires line id) self.old self.new }
        ensures frames { OnTrue result (AreAllSent line (RunsOut id) self.old self.new) }
    {
        if !self.lines.is_running(line, id) {
            return false;
        }
        self.lines.begin();
        self.lines.on_timer(&self.routes, line, id);
        self.lines.finish(&self.routes, line);
        true
    }

    /// Gives the link of a line up (X.25 2.4.4): the calls of the line end, and none is joined. As the DTE the switch
    /// sets the link up again, and while it is being set up it goes on as it is. As the DCE it asks for that by DM.
    ///
    /// Each join of two other lines is as it was, unless one of the two was set up again, since a fifth packet came to
    /// be owed there. After the event nothing waits that the other leg or the link takes. On each line all frames of
    /// the event wait.
    pub fn relink(&mut self, line: usize)
        requires { line < length self.old.lines }
        ensures switch { self.new ≡ relink line self.old }
        ensures others { LeavesOthers line Relinks self.old self.new }
        ensures relayed { HasRelayedAll self.new.lines }
        ensures nothing_kept_back { EndsKeepNothingBack self.new.lines }
        ensures routes { JoinsNone self.old.lines self.new.lines }
        ensures legs { KeepsLegs (SetsUp line) self.old self.new }
        ensures frames { AreAllSent line Relinks self.old self.new }
    {
        self.lines.begin();
        self.lines.relink(&self.routes, line);
        self.lines.finish(&self.routes, line);
    }

    /// Restarts the switch: no link is up, and no call is left.
    pub fn restart(&mut self)
        ensures switch { self.new ≡ restart self.old }
        ensures nothing_kept_back { EndsKeepNothingBack self.new.lines }
        ensures legs { KeepsLegs Restarts self.old self.new }
    {
        self.lines.restart();
    }

    /// Takes the next frame that goes out on a line, if there is one. If there is none, `frame` stays as it is.
    pub fn out(&mut self, line: usize, frame: &mut FrameBuf) -> bool
        requires { line < length self.old.lines }
        ensures frame { OnTrue result (frames_on (slice_get self.old.lines line)
            ≡ frame.new ∷ frames_on (slice_get self.new.lines line)) }
        ensures nothing { OnFalse result (frames_on (slice_get self.old.lines line) ≡ []) }
        ensures same { OnFalse result (frame.new ≡ frame.old) }
        ensures switch { self.new ≡ without_frame line self.old }
        ensures legs { KeepsLegs (Departs line) self.old self.new }
    {
        self.lines.out(line, frame)
    }

    /// Lets ticks pass, each a twentieth of a second: each timer that runs has so many less, not below 0.
    pub fn elapse(&mut self, ticks: u16)
        ensures switch { self.new ≡ elapse ticks self.old }
        ensures legs { KeepsLegs (Elapses ticks) self.old self.new }
    {
        self.lines.elapse(ticks);
    }

    /// The first timer of a line that runs with no tick left, in the order of [`TimerId`] and then by number.
    pub fn due(&self, line: usize) -> Option<TimerId>
        requires { line < length self.now.lines }
        ensures { result ≡ due_on (slice_get self.now.lines line) }
    {
        self.lines.due(line)
    }

    /// The channel to which the call on a channel is joined, if there is a call.
    pub fn joins(&self, leg: SwitchChannel) -> Option<SwitchChannel>
        ensures { result ≡ option_map (λ j. j.other) (joined_at self.now.lines leg) }
    {
        self.lines.other(leg)
    }
}
