//! The editor of the text that a terminal types.
ghost use Rattle.std.specs.Prelude.{◌≡◌, ◌+◌, ◌≤◌, ◌<◌, [], ◌∷◌, ◌++◌, length, is_some};
ghost use Rattle.std.specs.Bool.{OnTrue, OnFalse};
ghost use Rattle.pad_editing.specs.Edited.{after_key, after_typed, after_idle, editing, holds};
ghost use Rattle.pad_editing.specs.Edited.{inserts, inserted, only_adds};
ghost use Rattle.pad_editing.specs.Echoes.{echo_of, echo_of_added};

use crate::block::{BLOCK_LIMIT, Block};
use crate::echo::Echo;
use arrayvec::ArrayVec;
use std::marker::Model;
use x3_params::{EditingFunction, LineFeedInsertion, Params};

const CARRIAGE_RETURN: u8 = b'\r';

/// What a key gives: its echo, and the block that it ends, if any.
#[derive(Drop)]
pub struct KeyOut {
    pub echo: Echo,
    pub block: Option<Block>,
}

/// The text that a terminal sent and that was not forwarded yet, fewer than 128 octets.
#[derive(Drop)]
pub struct Editor {
    held: ArrayVec<u8, BLOCK_LIMIT>,
}

impl Model for Editor {
    ghost use Rattle.std.specs.Prelude.{ℕ, List, ◌<◌, length};

    ghost Value = { List ℕ };

    ghost view = { λ e. e.held.items };

    ghost invariant = { λ e. length e.held.items < 128 };
}

impl Editor {
    /// An editor that holds nothing.
    pub fn new() -> Editor
        ensures { result ≡ [] }
    {
        Editor {
            held: ArrayVec::new(),
        }
    }

    /// The text that is held, fewer than 128 octets.
    pub fn held(&self) -> &[u8]
        ensures text { result.now ≡ self.now }
        ensures limit { length self.now < 128 }
    {
        self.held.as_slice()
    }

    /// Drops the text that is held.
    pub fn discard(&mut self)
        ensures { self.new ≡ [] }
    {
        self.held.clear();
    }

    /// Takes a key (X.3 3.3, 3.13, 3.15 to 3.18).
    ///
    /// With parameter 15 the characters of 16, 17 and 18 take the last octet away, empty the text, and show it. Any
    /// other key is added to the text, a carriage return with a line feed if parameter 13 asks for it. A data
    /// forwarding character ends a block, and is its last octet but for such a line feed; 128 octets end one too. A
    /// carriage return that fills the 128 ends its block, and its line feed begins the next text.
    #[tactic(auto, unfolding(crate::specs::Edited::after_key))]
    pub fn key(&mut self, octet: u8, params: &Params) -> KeyOut
        ensures held { self.new ≡ (after_key params.now octet self.old).held }
        ensures block { result.block ≡ (after_key params.now octet self.old).block }
        ensures echo { result.echo ≡ echo_of params.now octet self.old }
    {
        let echo = self.echo(octet, params);
        let block = match function_of(octet, params) {
            Some(EditingFunction::CharacterDelete) => {
                self.held.pop();
                None
            }
            Some(EditingFunction::LineDelete) => {
                self.discard();
                None
            }
            Some(EditingFunction::LineDisplay) => None,
            None => typed(&mut self.held, octet, params),
        };
        KeyOut { echo, block }
    }

    /// Takes a key as `key` does, if it only adds its octet to the text: it edits nothing, no line feed follows it, and
    /// it ends no block (X.3 3.3, 3.13, 3.15). Answers whether it was such a key; any other changes nothing.
    ///
    /// The echo of such a key is its octet, if echo is on (X.3 3.2).
    #[tactic(auto, unfolding(crate::specs::Edited::after_key, crate::specs::Echoes::echo_of))]
    pub fn add(&mut self, octet: u8, params: &Params) -> bool
        ensures exact { result ≡ only_adds params.now octet self.old }
        ensures added { OnTrue result (after_key params.now octet self.old ≡ holds self.new) }
        ensures echo { OnTrue result (echo_of params.now octet self.old ≡ echo_of_added params.now octet) }
        ensures other { OnFalse result (self.new ≡ self.old) }
    {
        if function_of(octet, params).is_some()
            || inserts(octet, params)
            || self.ends_block(octet, params)
        {
            return false;
        }
        self.held.push(octet);
        true
    }

    /// Whether `key` would end a block.
    #[tactic(auto, unfolding(crate::specs::Edited::after_key))]
    pub fn forwards(&self, octet: u8, params: &Params) -> bool
        ensures { result ≡ is_some (after_key params.now octet self.now).block }
    {
        if function_of(octet, params).is_some() {
            return false;
        }
        self.ends_block(octet, params)
    }

    /// Takes the end of the idle time (X.3 3.4): the text, if there is any, is a block when parameter 4 is not 0 and
    /// text is not edited.
    #[tactic(auto, unfolding(crate::specs::Edited::after_idle))]
    pub fn idle(&mut self, params: &Params) -> Option<Block>
        ensures held { self.new ≡ (after_idle params.now self.old).held }
        ensures block { result ≡ (after_idle params.now self.old).block }
    {
        if params.idle_time() > 0 && !params.has_editing() && !self.held.is_empty() {
            Some(Block::of(self.held.take()))
        } else {
            None
        }
    }

    /// Whether a key that edits nothing would end a block.
    fn ends_block(&self, octet: u8, params: &Params) -> bool
        ensures { result ≡ is_some (after_typed params.now octet (self.now ++ octet ∷ [])).block }
    {
        let length = self.held.len() + 1;
        let with_line_feed = length + insertion(octet, params).len();
        params.is_forwarding(octet) || length == BLOCK_LIMIT || with_line_feed == BLOCK_LIMIT
    }

    /// What the PAD echoes of a key, before it is taken.
    #[tactic(auto, unfolding(crate::specs::Echoes::echo_of))]
    fn echo(&self, octet: u8, params: &Params) -> Echo
        ensures { result ≡ echo_of params.now octet self.now }
    {
        if !params.has_echo() {
            return Echo::none();
        }
        match function_of(octet, params) {
            Some(function) => Echo::of_function(function, self.held()),
            None => Echo::of_octet(octet),
        }
    }
}

/// What a key edits, if anything.
fn function_of(octet: u8, params: &Params) -> Option<EditingFunction>
    ensures { result ≡ editing params.now octet }
{
    if params.has_editing() {
        params.editing_function(octet)
    } else {
        None
    }
}

/// Whether a line feed is inserted after an octet.
fn inserts(octet: u8, params: &Params) -> bool
    ensures { result ≡ inserts params.now octet }
{
    octet == CARRIAGE_RETURN && params.inserts_line_feed(LineFeedInsertion::FromTerminal)
}

/// What is inserted after an octet: a line feed or nothing.
fn insertion(octet: u8, params: &Params) -> &'static [u8]
    ensures octets { result.now ≡ inserted params.now octet }
    ensures short { length result.now ≤ 1 }
{
    if inserts(octet, params) { b"\n" } else { b"" }
}

/// Adds octets at the end of a text.
fn append(text: &mut ArrayVec<u8, BLOCK_LIMIT>, octets: &[u8])
    requires { length text.old.items + length octets.now ≤ 128 }
    ensures { text.new.items ≡ text.old.items ++ octets.now }
{
    let _ = text.try_extend_from_slice(octets);
}

/// Adds an octet to a text, and gives the block that it ends.
fn typed(held: &mut ArrayVec<u8, BLOCK_LIMIT>, octet: u8, params: &Params) -> Option<Block>
    requires { length held.old.items < 128 }
    ensures held { held.new.items ≡ (after_typed params.now octet (held.old.items ++ octet ∷ [])).held }
    ensures block { result ≡ (after_typed params.now octet (held.old.items ++ octet ∷ [])).block }
    ensures limit { length held.new.items < 128 }
{
    let line_feed = insertion(octet, params);
    held.push(octet);
    if held.is_full() {
        let block = Block::of(held.take());
        append(held, line_feed);
        return Some(block);
    }
    append(held, line_feed);
    if params.is_forwarding(octet) || held.is_full() {
        return Some(Block::of(held.take()));
    }
    None
}
