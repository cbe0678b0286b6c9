//! The text of an answer: what is printed for an event.
ghost use Rattle.std.specs.Prelude.{◌≡◌, ◌<◌, ◌++◌, ◌∷◌, ℕ, List, [], Some, Ok, OnOk, string_bytes, decimal};
ghost use Rattle.std.specs.Bool.{OnTrue};
ghost use Rattle.std.specs.List.{flat_map, list_all};
ghost use Rattle.answer_texts.specs.Answers.{Names, quoted, shown, is_plain, hex_digit, flags_of, taken_text};
ghost use Rattle.answer_texts.specs.Answers.{name_of, outcome_text, refusal_text, node_refusal_text, way_of, spaced};
ghost use Rattle.answer_texts.specs.Answers.{frame_text, note_text, happening, answer_text, check_line};

use frame_lines::Direction;
use itoa::Buffer;
use net_events::{Answer, Event, Outcome, Put, StepFault};
use packet_layer::{CallFault, ChannelFault, Front};
use std::alloc::AllocError;
use user_nodes::{CallUser, NodeFault, NoteKind, UserNote};
use x25_pad::PadAnswer;

/// So many octets are looked at together, and added together if all of them stand for themselves.
const RUN: usize = 32;

/// Whether it is certain that nothing is printed of an outcome, so that no line need be made: of that of a delivery,
/// and of that of a key that was taken.
pub fn prints_nothing(event: &Event, outcome: &Outcome) -> bool
    ensures { (names : Names) → (text : List ℕ) → OnTrue result (outcome_text names event.now outcome.now text ≡ []) }
{
    match (event, outcome) {
        (Event::Deliver { .. }, _) | (Event::AtTerminal { .. }, Outcome::Typed(PadAnswer::Taken)) =>
            true,
        _ => false,
    }
}

/// Adds the text of an answer, by the names of the network's nodes: the lines of its frames, if they are traced, of
/// what the users of hosts are told, and of its outcome. For want of memory it is refused; some of the text may then
/// have been added.
pub fn add_answer(
    text: &mut Vec<u8>,
    names: &[String],
    traces: bool,
    event: &Event,
    answer: &Answer,
) -> Result<(), AllocError>
    ensures { OnOk result (text.new.items ≡ text.old.items
        ++ answer_text names.now traces event.now (Ok answer.now)) }
{
    if traces {
        add_frames(text, answer.frames.as_slice())?;
    }
    add_notes(text, names, answer.notes.as_slice())?;
    add_outcome(text, names, event, answer)
}

/// Adds the line of an outcome: none for a key that was taken, nor for a delivery.
fn add_outcome(
    line: &mut Vec<u8>,
    names: &[String],
    event: &Event,
    answer: &Answer,
) -> Result<(), AllocError>
    ensures { OnOk result (line.new.items ≡ line.old.items
        ++ outcome_text names.now event.now answer.now.outcome answer.now.text.items) }
{
    match (event, &answer.outcome) {
        (Event::Call { node, .. }, Outcome::Called { channel }) => {
            add_place(line, node_name(names, *node), b'/', u16::from(*channel))?;
            line.extend_from_slice(b" called\n")
        }
        (Event::Take { node, channel }, Outcome::Took(front)) => {
            add_place(line, node_name(names, *node), b'/', *channel)?;
            add_taken(line, *front, answer.text.as_slice())
        }
        (Event::AtTerminal { node, terminal, .. }, Outcome::Printed) => {
            add_place(line, node_name(names, *node), b'.', *terminal)?;
            add_quoted(line, b" ", answer.text.as_slice())
        }
        (Event::AtTerminal { .. }, Outcome::Typed(PadAnswer::Dropped)) => {
            line.extend_from_slice(b"dropped\n")
        }
        _ => Ok(()),
    }
}

/// Adds a node with one of its channels or terminals.
fn add_place(line: &mut Vec<u8>, node: &str, sign: u8, number: u16) -> Result<(), AllocError>
    ensures { OnOk result (line.new.items ≡ line.old.items ++ (node.now ++ sign ∷ decimal number)) }
{
    let mut digits = Buffer::new();
    line.extend_from_slice(node.as_bytes())?;
    line.extend_from_slice(&[sign])?;
    line.extend_from_slice(digits.format(number).as_bytes())
}

/// Adds what was taken, if anything, after a space, and ends the line.
fn add_taken(line: &mut Vec<u8>, front: Option<Front>, octets: &[u8]) -> Result<(), AllocError>
    ensures { OnOk result (line.new.items ≡ line.old.items ++ (32 ∷ taken_text front octets.now ++ 10 ∷ [])) }
{
    match front {
        None => line.extend_from_slice(b" none\n"),
        Some(Front::Interrupt) => add_quoted(line, b" int ", octets),
        Some(
            Front::Data {
                more,
                qualified,
                delivery,
                ..
            },
        ) => {
            line.extend_from_slice(b" data ")?;
            line.extend_from_slice(flags_of(more, qualified, delivery).as_bytes())?;
            add_quoted(line, b" ", octets)
        }
    }
}

/// Adds octets between quotes, after others, and ends the line.
fn add_quoted(line: &mut Vec<u8>, before: &[u8], octets: &[u8]) -> Result<(), AllocError>
    ensures { OnOk result (line.new.items ≡ line.old.items ++ (before.now ++ (quoted octets.now ++ 10 ∷ []))) }
{
    line.extend_from_slice(before)?;
    line.extend_from_slice(b"\"")?;
    add_octets(line, octets)?;
    line.extend_from_slice(b"\"\n")
}

/// Adds octets as they stand between quotes.
fn add_octets(line: &mut Vec<u8>, octets: &[u8]) -> Result<(), AllocError>
    ensures { OnOk result (line.new.items ≡ line.old.items ++ flat_map shown octets.now) }
{
    let mut rest = octets;
    while !rest.is_empty() {
        let (run, others) = rest.split_at(rest.len().min(RUN));
        add_run(line, run)?;
        rest = others;
    }
    Ok(())
}

/// Adds a run of octets as they stand between quotes.
fn add_run(line: &mut Vec<u8>, octets: &[u8]) -> Result<(), AllocError>
    ensures { OnOk result (line.new.items ≡ line.old.items ++ flat_map shown octets.now) }
{
    if are_plain(octets) {
        return line.extend_from_slice(octets);
    }
    for octet in octets {
        add_octet(line, *octet)?;
    }
    Ok(())
}

/// Whether each of these octets stands for itself between quotes.
fn are_plain(octets: &[u8]) -> bool
    ensures { result ≡ list_all is_plain octets.now }
{
    let mut all = true;
    for octet in octets {
        all &= is_plain(*octet);
    }
    all
}

/// Whether an octet stands for itself between quotes.
fn is_plain(octet: u8) -> bool
    ensures { result ≡ is_plain octet }
{
    (octet >= 0x20) & (octet < 0x7F) & (octet != b'\\')
}

/// Adds an octet as it stands between quotes: a printable character stands for itself, a backslash is doubled, and any
/// other octet is a backslash and its two hexadecimal digits.
fn add_octet(line: &mut Vec<u8>, octet: u8) -> Result<(), AllocError>
    ensures { OnOk result (line.new.items ≡ line.old.items ++ shown octet) }
{
    match octet {
        b'\\' => line.extend_from_slice(b"\\\\"),
        0x20..=0x7E => {
            line.push(octet)?;
            Ok(())
        }
        _ => line.extend_from_slice(&[b'\\', hex_digit(octet / 16), hex_digit(octet % 16)]),
    }
}

// ---- frames

/// Adds the lines that trace frames that were put.
fn add_frames(text: &mut Vec<u8>, puts: &[Put]) -> Result<(), AllocError>
    ensures { OnOk result (text.new.items ≡ text.old.items ++ flat_map frame_text puts.now) }
{
    for put in puts {
        add_frame(text, put)?;
    }
    Ok(())
}

/// Adds the line that traces a frame that was put: its line, its direction and its octets.
fn add_frame(text: &mut Vec<u8>, put: &Put) -> Result<(), AllocError>
    ensures { OnOk result (text.new.items ≡ text.old.items ++ frame_text put.now) }
{
    let mut digits = Buffer::new();
    text.extend_from_slice(digits.format(put.line).as_bytes())?;
    text.extend_from_slice(b" ")?;
    text.extend_from_slice(way_of(put.direction).as_bytes())?;
    add_spaced(text, put.octets.as_slice())?;
    text.extend_from_slice(b"\n")
}

/// The sign of a direction.
fn way_of(direction: Direction) -> &'static str
    ensures { result.now ≡ way_of direction }
{
    match direction {
        Direction::FromDte => ">",
        Direction::FromDce => "<",
    }
}

/// Adds octets in hexadecimal, each after a space.
fn add_spaced(text: &mut Vec<u8>, octets: &[u8]) -> Result<(), AllocError>
    ensures { OnOk result (text.new.items ≡ text.old.items ++ flat_map spaced octets.now) }
{
    for octet in octets {
        text.extend_from_slice(&[b' ', hex_digit(*octet / 16), hex_digit(*octet % 16)])?;
    }
    Ok(())
}

// ---- notes

/// Adds the lines of what users are told: of hosts alone.
fn add_notes(text: &mut Vec<u8>, names: &[String], notes: &[UserNote]) -> Result<(), AllocError>
    ensures { OnOk result (text.new.items ≡ text.old.items ++ flat_map (note_text names.now) notes.now) }
{
    for note in notes {
        add_note(text, names, note)?;
    }
    Ok(())
}

/// Adds the line of what the user of a host is told of a call. What a terminal is told has none.
fn add_note(text: &mut Vec<u8>, names: &[String], note: &UserNote) -> Result<(), AllocError>
    ensures { OnOk result (text.new.items ≡ text.old.items ++ note_text names.now note.now) }
{
    if let CallUser::Terminal(_) = note.user {
        return Ok(());
    }
    add_place(
        text,
        node_name(names, note.node),
        b'/',
        u16::from(note.channel),
    )?;
    text.extend_from_slice(b" ")?;
    add_happening(text, &note.kind)?;
    text.extend_from_slice(b"\n")
}

/// Adds what happened to a call.
fn add_happening(text: &mut Vec<u8>, kind: &NoteKind) -> Result<(), AllocError>
    ensures { OnOk result (text.new.items ≡ text.old.items ++ happening kind.now) }
{
    match kind {
        NoteKind::Dialled { .. } => Ok(()),
        NoteKind::Incoming { calling: None, .. } => text.extend_from_slice(b"incoming"),
        NoteKind::Incoming {
            calling: Some(address),
            ..
        } => {
            text.extend_from_slice(b"incoming ")?;
            add_digits(text, address.digits())
        }
        NoteKind::Connected => text.extend_from_slice(b"connected"),
        NoteKind::Cleared { cause, diagnostic } => {
            text.extend_from_slice(b"cleared ")?;
            add_cause(text, *cause, *diagnostic)
        }
        NoteKind::Reset { cause, diagnostic } => {
            text.extend_from_slice(b"reset ")?;
            add_cause(text, *cause, *diagnostic)
        }
    }
}

/// Adds a cause and a diagnostic.
fn add_cause(text: &mut Vec<u8>, cause: u8, diagnostic: u8) -> Result<(), AllocError>
    ensures { OnOk result (text.new.items ≡ text.old.items ++ (decimal cause ++ (32 ∷ decimal diagnostic))) }
{
    let mut digits = Buffer::new();
    text.extend_from_slice(digits.format(cause).as_bytes())?;
    text.extend_from_slice(b" ")?;
    text.extend_from_slice(digits.format(diagnostic).as_bytes())
}

/// Adds the digits of an address.
fn add_digits(text: &mut Vec<u8>, digits: &[u8]) -> Result<(), AllocError>
    ensures { OnOk result (text.new.items ≡ text.old.items ++ flat_map decimal digits.now) }
{
    let mut buffer = Buffer::new();
    for digit in digits {
        text.extend_from_slice(buffer.format(*digit).as_bytes())?;
    }
    Ok(())
}

// ---- lines of one kind

/// The line of a refusal: its number and name.
pub fn refusal_text(fault: StepFault) -> &'static str
    ensures { result.now ≡ refusal_text fault }
{
    match fault {
        StepFault::NoSuchNode => "refused 1 NoSuchNode\n",
        StepFault::NoSuchTerminal => "refused 2 NoSuchTerminal\n",
        StepFault::NoSuchCall => "refused 3 NoSuchCall\n",
        StepFault::Refused(fault) => node_refusal_text(fault),
        StepFault::OutOfMemory => "refused 5 OutOfMemory\n",
    }
}

/// The line of a check: whether in each call what each end took matches what the other one sent.
pub fn check_line(all_match: bool) -> &'static str
    ensures { result.now ≡ check_line all_match }
{
    if all_match {
        "check ok\n"
    } else {
        "check fail\n"
    }
}

/// The line of a refusal by the node.
fn node_refusal_text(fault: NodeFault) -> &'static str
    ensures { result.now ≡ node_refusal_text fault }
{
    match fault {
        NodeFault::Call(CallFault::NotReady) => "refused 4 NotReady\n",
        NodeFault::Call(CallFault::NoChannel) => "refused 4 NoChannel\n",
        NodeFault::Channel(ChannelFault::NoCall) => "refused 4 NoCall\n",
        NodeFault::Channel(ChannelFault::Resetting) => "refused 4 Resetting\n",
        NodeFault::Channel(ChannelFault::QueueFull) => "refused 4 QueueFull\n",
        NodeFault::Channel(ChannelFault::TooLong) => "refused 4 TooLong\n",
        NodeFault::Channel(ChannelFault::InterruptPending) => "refused 4 InterruptPending\n",
    }
}

/// The name of the node at this place, empty where there is none.
fn node_name(names: &[String], node: usize) -> &str
    ensures { result.now ≡ name_of names.entry.now node }
{
    match names.get(node) {
        Some(name) => name.as_str(),
        None => "",
    }
}

/// The letters of the bits M, Q and D that are set, or a dash where none is.
fn flags_of(more: bool, qualified: bool, delivery: bool) -> &'static str
    ensures { result.now ≡ flags_of more qualified delivery }
{
    match (more, qualified, delivery) {
        (false, false, false) => "-",
        (false, false, true) => "d",
        (false, true, false) => "q",
        (false, true, true) => "qd",
        (true, false, false) => "m",
        (true, false, true) => "md",
        (true, true, false) => "mq",
        (true, true, true) => "mqd",
    }
}

/// The hexadecimal digit of a number below 16.
fn hex_digit(number: u8) -> u8
    requires { number < 16 }
    ensures { result ≡ hex_digit number }
{
    if number < 10 {
        b'0' + number
    } else {
        b'A' - 10 + number
    }
}
