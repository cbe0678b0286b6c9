//! The causes with which a switch resets and clears a far leg (X.25 tables 5-7 and 5-8).
ghost use Rattle.std.specs.Prelude.{◌≡◌};
ghost use Rattle.packet_channel.specs.NoteView.{reason_of};
ghost use Rattle.joined_line.specs.Causes as spec;

use packet_codec::{clear_cause, diagnostic, reset_cause};
use packet_layer::Reason;

/// The cause of a reset of the far leg: what the near leg's partner said is handed on, and a procedure error found there is
/// a remote one.
pub fn far_reset_cause(reason: Reason, cause: u8) -> u8
    ensures { result ≡ spec.reset_cause (reason_of reason) cause }
{
    match reason {
        Reason::FarEnd => cause,
        _ => reset_cause::REMOTE_PROCEDURE_ERROR,
    }
}

/// The cause of a clear of the far leg: a Restart on a trunk comes from a switch, one on another line from its DTE.
pub fn far_clear_cause(trunk: bool, reason: Reason, cause: u8) -> u8
    ensures { result ≡ spec.clear_cause trunk (reason_of reason) cause }
{
    match reason {
        Reason::FarEnd => cause,
        Reason::LocalFault => clear_cause::REMOTE_PROCEDURE_ERROR,
        Reason::LinkLost => clear_cause::OUT_OF_ORDER,
        Reason::FarRestart if trunk => clear_cause::OUT_OF_ORDER,
        Reason::FarRestart => clear_cause::DTE_ORIGINATED,
        Reason::Cancelled => clear_cause::NUMBER_BUSY,
    }
}

/// The diagnostic of a reset or a clear of the far leg.
pub fn far_diagnostic(reason: Reason, diagnostic: u8) -> u8
    ensures { result ≡ spec.far_diagnostic (reason_of reason) diagnostic }
{
    match reason {
        Reason::FarEnd => diagnostic,
        _ => diagnostic::NO_INFORMATION,
    }
}
