//! What the parameters' values ask for, one question a parameter.

ghost use Rattle.std.specs.Prelude.{◌≡◌, ◌≤◌};
ghost use Rattle.x3_params.specs.Forwarding.{class_of};

use crate::editing::EditingFunction;
use crate::params::Params;

/// What the PAD does at a break (X.3 3.7).
#[derive(Clone, Copy, PartialEq, Eq)]
pub enum BreakAction {
    /// Sends an interrupt.
    Interrupt,
    /// Resets the call.
    Reset,
    /// Sends an indication of break.
    Indication,
    /// Escapes to the command state.
    Escape,
    /// Discards output from then on.
    Discard,
}

/// Where a line feed is inserted after a carriage return (X.3 3.13).
#[derive(Clone, Copy, PartialEq, Eq)]
pub enum LineFeedInsertion {
    /// In what is sent to the terminal.
    ToTerminal,
    /// In what comes from the terminal.
    FromTerminal,
    /// In the echo.
    InEcho,
}

impl Params {
    ghost use Rattle.x3_params.specs.Values.{value};
    ghost use Rattle.x3_params.specs.Forwarding.{is_forwarding};
    ghost use Rattle.x3_params.specs.EditingFunctions.{function_of};
    ghost use Rattle.x3_params.specs.Settings as settings;

    /// The character that recalls the PAD to the command state, if any (parameter 1).
    pub fn recall_character(&self) -> Option<u8>
        ensures { result ≡ settings.recall_character self.now }
    {
        match self.values[0] {
            0 => None,
            1 => Some(0x10),
            character => Some(character),
        }
    }

    /// Whether the PAD echoes what is typed (parameter 2).
    pub fn has_echo(&self) -> bool
        ensures { result ≡ settings.has_echo self.now }
    {
        self.values[1] == 1
    }

    /// Whether an octet is a data forwarding character (parameter 3).
    pub fn is_forwarding(&self, octet: u8) -> bool
        ensures { result ≡ is_forwarding self.now octet }
    {
        self.values[2] & class_of(octet) != 0
    }

    /// The idle time after which held text is forwarded, in twentieths of a second; 0 for none (parameter 4).
    pub fn idle_time(&self) -> u8
        ensures { result ≡ value self.now 4 }
    {
        self.values[3]
    }

    /// Whether the PAD stops the terminal by DC3 and lets it go on by DC1 (parameter 5).
    pub fn has_device_control(&self) -> bool
        ensures { result ≡ settings.has_device_control self.now }
    {
        self.values[4] == 1
    }

    /// Whether service signals are shown (parameter 6).
    pub fn has_signals(&self) -> bool
        ensures { result ≡ settings.has_signals self.now }
    {
        self.values[5] != 0
    }

    /// Whether the prompt is shown (parameter 6).
    pub fn has_prompt(&self) -> bool
        ensures { result ≡ settings.has_prompt self.now }
    {
        self.values[5] == 5
    }

    /// Whether a break does this, among others (parameter 7).
    pub fn acts_on_break(&self, action: BreakAction) -> bool
        ensures { result ≡ settings.acts_on_break self.now action }
    {
        let bit = match action {
            BreakAction::Interrupt => 1,
            BreakAction::Reset => 2,
            BreakAction::Indication => 4,
            BreakAction::Escape => 8,
            BreakAction::Discard => 16,
        };
        self.values[6] & bit != 0
    }

    /// Whether output to the terminal is thrown away (parameter 8).
    pub fn discards_output(&self) -> bool
        ensures { result ≡ settings.discards_output self.now }
    {
        self.values[7] == 1
    }

    /// How many NULs follow a carriage return, at most 7 (parameter 9).
    #[tactic(auto, using(crate::proofs::Ranges::return_padding_bound))]
    pub fn return_padding(&self) -> u8
        ensures value { result ≡ value self.now 9 }
        ensures bound { result ≤ 7 }
    {
        self.values[8]
    }

    /// The columns of a line, after which it is folded; 0 for no folding (parameter 10).
    pub fn fold_column(&self) -> u8
        ensures { result ≡ value self.now 10 }
    {
        self.values[9]
    }

    /// The speed of the terminal, which is read only (parameter 11).
    pub fn speed(&self) -> u8
        ensures { result ≡ value self.now 11 }
    {
        self.values[10]
    }

    /// Whether the terminal may stop the PAD's output by DC3 (parameter 12).
    pub fn has_flow_control(&self) -> bool
        ensures { result ≡ settings.has_flow_control self.now }
    {
        self.values[11] == 1
    }

    /// Whether a line feed is inserted after a carriage return (parameter 13).
    pub fn inserts_line_feed(&self, place: LineFeedInsertion) -> bool
        ensures { result ≡ settings.inserts_line_feed self.now place }
    {
        let bit = match place {
            LineFeedInsertion::ToTerminal => 1,
            LineFeedInsertion::FromTerminal => 2,
            LineFeedInsertion::InEcho => 4,
        };
        self.values[12] & bit != 0
    }

    /// How many NULs follow a line feed, at most 7 (parameter 14).
    #[tactic(auto, using(crate::proofs::Ranges::line_feed_padding_bound))]
    pub fn line_feed_padding(&self) -> u8
        ensures value { result ≡ value self.now 14 }
        ensures bound { result ≤ 7 }
    {
        self.values[13]
    }

    /// Whether the terminal's text is edited before it is sent (parameter 15).
    pub fn has_editing(&self) -> bool
        ensures { result ≡ settings.has_editing self.now }
    {
        self.values[14] == 1
    }

    /// What a character does to a text that is edited (parameters 16, 17 and 18, asked in this order).
    pub fn editing_function(&self, octet: u8) -> Option<EditingFunction>
        ensures { result ≡ function_of self.now octet }
    {
        if octet == self.values[15] {
            Some(EditingFunction::CharacterDelete)
        } else if octet == self.values[16] {
            Some(EditingFunction::LineDelete)
        } else if octet == self.values[17] {
            Some(EditingFunction::LineDisplay)
        } else {
            None
        }
    }
}

/// The term of parameter 3 that stands for an octet, or 0.
#[tactic(auto, unfolding(crate::specs::Forwarding::class_of))]
fn class_of(octet: u8) -> u8
    ensures { result ≡ class_of octet }
{
    match octet {
        b'0'..=b'9' | b'A'..=b'Z' | b'a'..=b'z' => 1,
        b'\r' => 2,
        0x1B | 0x07 | 0x05 | 0x06 => 4,
        0x7F | 0x18 | 0x12 => 8,
        0x03 | 0x04 => 16,
        0x09..=0x0C => 32,
        0x00..=0x1F => 64,
        _ => 0,
    }
}
