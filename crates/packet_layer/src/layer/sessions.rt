//! The sessions of the link, and the restart procedure (X.25 3).
ghost use Rattle.std.specs.Prelude.{◌≡◌, [], Some, ◌≤◌, length};
ghost use Rattle.flow_window.specs.Pool.{Holds, Balances};
ghost use Rattle.packet_layer.specs.Held.{most_held};
ghost use Rattle.packet_layer.specs.Layer as machine;
ghost use Rattle.packet_channel.specs.NoteView.{reason_of};
ghost use Rattle.packet_layer.specs.RestartView.{restart_body};

use crate::layer::Layer;
use crate::layer::closing::close_channels;
use crate::restart::{Phase, RestartPacket};
use flow_window::pool::Pool;
use link_timers::Role;
use number_set::NumberSet;
use packet_channel::{Owed, Reason};
use packet_codec::{diagnostic, restart_cause};

impl Layer {
    /// A session of the link begins: all calls close, and this end restarts the packet layer, a DTE as originated
    /// by a DTE and a DCE as network operational (X.25 3.3).
    pub fn link_up(&mut self, pool: &mut Pool)
        requires holds { Holds pool.old self.old.held }
        ensures layer { self.new.layer ≡ machine.link_up self.old.layer }
        ensures pool { Balances pool.old self.old.held pool.new self.new.held }
        ensures most { most_held self.new.layer ≡ most_held self.old.layer }
        ensures few { length self.new.held ≤ most_held self.new.layer }
    {
        self.notes.clear();
        self.close_all(Reason::LinkLost, pool);
        self.owed = Owed::new();
        self.relink = false;
        let cause = match self.role {
            Role::Dte => restart_cause::DTE_ORIGINATED,
            Role::Dce => restart_cause::NETWORK_OPERATIONAL,
        };
        self.restart(cause, diagnostic::NO_INFORMATION);
    }

    /// The session of the link has ended: all calls close, and nothing goes to the link or is taken from it until
    /// `link_up`.
    pub fn link_down(&mut self, pool: &mut Pool)
        requires holds { Holds pool.old self.old.held }
        ensures layer { self.new.layer ≡ machine.link_down self.old.layer }
        ensures pool { Balances pool.old self.old.held pool.new self.new.held }
        ensures most { most_held self.new.layer ≡ most_held self.old.layer }
        ensures few { length self.new.held ≤ most_held self.new.layer }
    {
        self.notes.clear();
        self.close_all(Reason::LinkLost, pool);
        self.phase = Phase::NoSession;
        self.served_last = 0;
        self.owed = Owed::new();
        self.relink = false;
    }

    pub(crate) fn close_all(&mut self, reason: Reason, pool: &mut Pool)
        requires read { self.old.layer.notes ≡ [] }
        requires holds { Holds pool.old self.old.held }
        ensures layer { self.new.layer ≡ machine.all_closed (reason_of reason) self.old.layer }
        ensures pool { Balances pool.old self.old.held pool.new self.new.held }
        ensures most { most_held self.new.layer ≡ most_held self.old.layer }
        ensures few { length self.new.held ≤ most_held self.new.layer }
    {
        close_channels(&mut self.channels, &mut self.notes, reason, pool);
        self.to_serve = NumberSet::new();
    }

    /// Begins a restart of this end.
    pub(crate) fn restart(&mut self, cause: u8, diagnostic: u8)
        ensures { self.new ≡ record self.old { layer = machine.restarting cause diagnostic self.old.layer } }
    {
        self.phase = Phase::OwnRestart;
        self.served_last = 0;
        self.owe_restart(RestartPacket::Restart { cause, diagnostic });
    }

    #[tactic(auto, using(packet_channel::proofs::Owing::map_with_owed, packet_channel::proofs::Owing::map_passes))]
    pub(crate) fn owe_restart(&mut self, packet: RestartPacket)
        ensures { self.new ≡ record self.old {
          layer = machine.owes_restart (Some (restart_body packet)) self.old.layer;
        } }
    {
        if self.owed.owe(packet) {
            self.relink = true;
        }
    }
}
