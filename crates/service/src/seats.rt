//! Which terminals clients have, as tables of a service file say.
ghost use Rattle.std.specs.Prelude.{◌≡◌, ◌≤◌, List, slice_get, Some, IfOk};
ghost use Rattle.service.specs.Seats.{AreSeated};

use crate::place::{Place, is_bound};
use crate::terminal::{Terminal, Terms};
use service_ports::PortMode;
use std::alloc::{AllocError, Global};

/// Terminals of a PAD that clients have: the PAD's name, its number in the network, and the numbers of the first and the
/// last terminal. A terminal that an earlier table has is of that one alone.
#[derive(Clone, Copy)]
pub struct TerminalsBinding<'a> {
    pub name: &'a str,
    pub node: usize,
    pub first: u16,
    pub last: u16,
    pub mode: PortMode,
    /// What a client of telnet is told first. Left out: which terminal it has, and what it may do.
    pub greeting: Option<&'a str>,
    /// After how many ticks without an octet either way a client goes. 0: never.
    pub idle: u16,
    /// Whether the PAD takes DC1 as XON there at first (X.3 3.12). Then it may be typed before keys that wait.
    pub has_xon: bool,
}

/// The terminals that clients have, and where each is.
#[derive(Drop)]
pub(crate) struct Seats {
    pub(crate) places: Vec<Place>,
    pub(crate) terminals: Vec<Terminal>,
}

impl Seats {
    ghost use Rattle.service.specs.declared.seats.TerminalsBinding.{TerminalsBinding};

    /// The terminals of these tables, in their order.
    pub(crate) fn new(alloc: Global, tables: &[TerminalsBinding<'_>]) -> Result<Self, AllocError>
        ensures { IfOk result (λ seats. AreSeated tables.now seats.places.items seats.terminals.items) }
    {
        let mut seats = Seats {
            places: Vec::new(alloc),
            terminals: Vec::new(alloc),
        };
        for table in 0..tables.len() {
            seats.add_table(alloc, table, &tables[table])?;
        }
        Ok(seats)
    }

    fn add_table(
        &mut self,
        alloc: Global,
        table: usize,
        binding: &TerminalsBinding<'_>,
    ) -> Result<(), AllocError>
        ensures { IfOk result (λ _. (tables : List TerminalsBinding)
            → AreSeated tables self.old.places.items self.old.terminals.items
            → slice_get tables table ≡ Some binding.now → AreSeated tables self.new.places.items self.new.terminals.items) }
    {
        for number in binding.first..=binding.last {
            self.add(alloc, table, binding, number)?;
        }
        Ok(())
    }

    /// Adds a terminal of a table, unless it is there.
    fn add(
        &mut self,
        alloc: Global,
        table: usize,
        binding: &TerminalsBinding<'_>,
        number: u16,
    ) -> Result<(), AllocError>
        requires from { binding.now.first ≤ number }
        requires to { number ≤ binding.now.last }
        ensures { IfOk result (λ _. (tables : List TerminalsBinding)
            → AreSeated tables self.old.places.items self.old.terminals.items
            → slice_get tables table ≡ Some binding.now → AreSeated tables self.new.places.items self.new.terminals.items) }
    {
        let place = Place {
            node: binding.node,
            number,
        };
        if is_bound(place, &self.places) {
            return Ok(());
        }
        let terms = Terms {
            table,
            idle: binding.idle,
            has_xon: binding.has_xon,
            greeting: greeting(alloc, binding, number)?.into_bytes(),
        };
        self.terminals
            .push(Terminal::new(alloc, binding.mode, terms)?)?;
        self.places.push(place)?;
        Ok(())
    }
}

/// What the client of a terminal is told first: of telnet a line of text, else nothing.
fn greeting(
    alloc: Global,
    binding: &TerminalsBinding<'_>,
    number: u16,
) -> Result<String, AllocError> {
    let name = binding.name;
    match (binding.mode, binding.greeting) {
        (PortMode::Raw, _) => Ok(String::new(alloc)),
        (PortMode::Telnet, Some(text)) => format!(in alloc; "{text}\r\n"),
        (PortMode::Telnet, None) => format!(in alloc;
            "Terminal {number} of {name}. Dial a number and Return; Ctrl-P, then CLR and Return, clears the call.\r\n"
        ),
    }
}
