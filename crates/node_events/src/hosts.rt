//! What a user asks of a host: the host is called, and what was asked is written into the book of its line.
ghost use Rattle.std.specs.Prelude.{◌≡◌, ◌≤◌, [], Some, Ok, OnOk, OnErr, length, vec_capacity};
ghost use Rattle.std.specs.Result.{result_and};
ghost use Rattle.packet_layer.specs.Layer.{front_on};
ghost use Rattle.data_transfer.specs.TakenView.{maybe_front, taken_octets};
ghost use Rattle.packet_host.specs.Host.{after_take};
ghost use Rattle.user_nodes.specs.Node.{Host as HostNode};
ghost use Rattle.node_laws.specs.Quiet.{IsQuiet};
ghost use Rattle.net_events.specs.EventView.{host_event_of};
ghost use Rattle.node_events.specs.Outcomes.{IsAnswered, text_of};
ghost use Rattle.node_events.specs.Served.{IsCalled, taken_written};
ghost use Rattle.node_events.specs.Users.{IsNumbered, IsWholeCall};

use crate::serving::MOST_WRITES;
use call_records::Book;
use link_timers::Role;
use net_events::{HostEvent, Outcome};
use packet_codec::MAX_USER_DATA;
use packet_host::Host;
use packet_layer::Front;
use user_nodes::{NodeFault, write_request, write_taken};

/// A host takes no more octets at once than this.
pub(crate) const MOST_TAKEN: usize = MAX_USER_DATA;

/// Takes what comes next on a channel of a host, if anything, writes it, and adds its octets to the text.
fn take(
    host: &mut Host,
    role: Role,
    channel: u8,
    book: &mut Book,
    text: &mut Vec<u8>,
) -> Option<Front>
    requires room { MOST_WRITES ≤ book.old.room }
    requires empty { text.old.items ≡ [] }
    requires places { MOST_TAKEN ≤ vec_capacity text.old }
    ensures taken { result ≡ maybe_front (front_on host.old.layer channel) }
    ensures host { host.new ≡ after_take host.old channel }
    ensures book { book.new.book ≡ taken_written (front_on host.old.layer channel) role channel book.old.book }
    ensures text { text.new.items ≡ taken_octets (front_on host.old.layer channel) }
    ensures kept { vec_capacity text.old ≤ vec_capacity text.new }
    ensures most { length text.new.items ≤ MOST_TAKEN }
{
    let front = host.take_into(channel, text)?;
    write_taken(book, role, channel, &front, text.as_slice());
    Some(front)
}

/// Asks a host what its user asks, writes it, and gives the outcome. The octets of what is taken are added to the text.
#[inline(never)]
pub(crate) fn ask_host(
    host: &mut Host,
    role: Role,
    event: &HostEvent<'_>,
    book: &mut Book,
    text: &mut Vec<u8>,
    outcome: &mut Outcome,
) -> Result<(), NodeFault>
    requires whole { IsWholeCall event.now }
    requires numbered { IsNumbered event.now }
    requires room { MOST_WRITES ≤ book.old.room }
    requires quiet { IsQuiet (HostNode host.old) }
    requires text { (text.old.items ≡ []) × (MOST_TAKEN ≤ vec_capacity text.old) }
    ensures answer { IsAnswered (host_event_of event.now) (HostNode host.old) (result_and result (Ok outcome.new)) }
    ensures text { OnOk result (text.new.items ≡ text_of (host_event_of event.now) (HostNode host.old)) }
    ensures ok { OnOk result (IsCalled (host_event_of event.now) role (HostNode host.old) book.old.book
        (HostNode host.new) book.new) }
    ensures host { OnErr result (host.new ≡ host.old) }
    ensures book { OnErr result (book.new ≡ book.old) }
    ensures kept { vec_capacity text.old ≤ vec_capacity text.new }
    ensures most { length text.new.items ≤ MOST_TAKEN }
{
    match event {
        HostEvent::Calls(address, user_data) => {
            let channel = host.call(*address, user_data)?;
            book.place(role, channel, address);
            *outcome = Outcome::Called { channel };
            Ok(())
        }
        HostEvent::Asks(channel, request) => {
            let channel = *channel as u8;
            let size = host.packet_size();
            host.ask(channel, request)?;
            write_request(book, role, channel, size, request);
            *outcome = Outcome::Done;
            Ok(())
        }
        HostEvent::Takes(channel) => {
            *outcome = Outcome::Took(take(host, role, *channel as u8, book, text));
            Ok(())
        }
    }
}
