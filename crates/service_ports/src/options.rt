//! Sets of options.

/// A set of options of telnet.
#[derive(Drop)]
pub(crate) struct OptionSet {
    contains: [bool; 256],
}

impl OptionSet {
    ghost use Rattle.std.specs.Prelude.{◌≡◌, not};
    ghost use Rattle.service_ports.specs.Options.{has_option, no_options, with_option};

    /// No option.
    pub(crate) fn new() -> Self
        ensures { result ≡ no_options }
    {
        OptionSet {
            contains: [false; 256],
        }
    }

    /// Adds an option, and says whether it was not there.
    pub(crate) fn add(&mut self, option: u8) -> bool
        ensures added { self.new ≡ with_option self.old option }
        ensures absent { result ≡ not (has_option self.old option) }
    {
        let place = usize::from(option);
        let was = self.contains[place];
        self.contains[place] = true;
        !was
    }
}
