//! The law of the packet layer and the state tables.
ghost use Rattle.packet_laws.specs.Tables.TableClauses.{EachPacket, CallPackets, DataPackets, CallsPlaced, CallActs, ResetPackets};
ghost use Rattle.packet_laws.specs.Tables.Notes.{SessionNotes, ExpiryNotes};
ghost use Rattle.packet_laws.specs.Tables.TableClauses.{ResetActs, RestartPackets, RestartUnreadable};

/// The machine of a packet layer, which knows own and far states, does what the state tables say, whose states go by
/// role: in each state and for each packet and act of the user for which a table has a row it comes to the state of the
/// row, owes its packet and tells what its note says (X.25 Annex C, tables C-2 to C-4).
pub fn tables_law()
    // Each packet on a channel meets a row of the call table.
    ensures each_packet { EachPacket }

    // In data transfer the row of the reset table is followed; where there is none, that of the call table; and where
    // this says so, numbers and interrupts decide. What is told then: how many packets are covered further, that the
    // interrupt is confirmed, or a reset by a procedure error.
    ensures reset_packets { ResetPackets }
    ensures call_packets { CallPackets }
    ensures data_packets { DataPackets }

    // Where a session of the link begins or ends, each call is told of, in rising order; and so it is where an expiry
    // restarts the line's packet layer. Another expiry clears the call of its channel.
    ensures session_notes { SessionNotes }
    ensures expiry_notes { ExpiryNotes }

    // What the user does.
    ensures calls_placed { CallsPlaced }
    ensures call_acts { CallActs }
    ensures reset_acts { ResetActs }

    // While the own restart is not confirmed, what cannot be read is discarded too.
    ensures restart_packets { RestartPackets }
    ensures restart_unreadable { RestartUnreadable }
{}
