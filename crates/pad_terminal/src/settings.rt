//! The parameters of a terminal, and how commands and messages set and read them.
ghost use Rattle.std.specs.Prelude.{◌≡◌, ◌≤◌, length, map, max, MatchOption, IsOk, Err};
ghost use Rattle.x3_params.specs.Values.{fault_of};
ghost use Rattle.pad_terminal.specs.Settings as spec;

use arrayvec::ArrayVec;
use x3_params::{ParamFault, Params, Profile};

/// How many pairs or numbers a command or a message has at most: those of a message.
const MOST_PAIRS: usize = 63;

/// The numbers of all parameters.
const ALL_NUMBERS: [u8; 18] = [
    1, 2, 3, 4, 5, 6, 7, 8, 9, 10, 11, 12, 13, 14, 15, 16, 17, 18,
];

/// A parameter's number, and the value in force or why the parameter was refused.
#[derive(Clone, Copy)]
pub(crate) struct Setting {
    pub(crate) number: u8,
    pub(crate) outcome: Result<u8, ParamFault>,
}

impl Default for Setting {
    fn default() -> Setting {
        Setting {
            number: 0,
            outcome: Ok(0),
        }
    }
}

/// The parameters in force and the initial ones, and whether the terminal stopped its output by DC3 (X.3 3.12).
#[derive(Clone, Copy)]
pub(crate) struct Settings {
    pub(crate) params: Params,
    pub(crate) initial: Params,
    pub(crate) output_stopped: bool,
}

/// What was set or read, one entry for each pair or number.
pub(crate) type Report = ArrayVec<Setting, MOST_PAIRS>;

impl Settings {
    /// These parameters, with the output not stopped.
    pub(crate) fn new(params: Params) -> Settings
        ensures { result ≡ spec.initial params }
    {
        Settings {
            params,
            initial: params,
            output_stopped: false,
        }
    }

    /// Puts other values in force. A terminal that may not stop its output has not stopped it.
    pub(crate) fn put(&mut self, params: Params)
        ensures { self.new ≡ spec.with_params params self.old }
    {
        self.output_stopped = self.output_stopped && params.has_flow_control();
        self.params = params;
    }

    /// Sets a parameter, as `Params::set`.
    pub(crate) fn set(&mut self, number: u8, value: u8) -> Result<(), ParamFault>
        ensures exact { MatchOption (fault_of number value) (IsOk result) (λ fault. result ≡ Err fault) }
        ensures settings { self.new ≡ spec.after_set number value self.old }
    {
        let mut params = self.params;
        params.set(number, value)?;
        self.put(params);
        Ok(())
    }

    /// Sets a parameter, and says what that came to.
    fn set_one(&mut self, number: u8, value: u8) -> Setting
        ensures settings { self.new ≡ spec.after_set number value self.old }
        ensures setting { result ≡ spec.setting_of number value self.old }
    {
        match self.set(number, value) {
            Ok(()) => self.read_one(number),
            Err(fault) => Setting {
                number,
                outcome: Err(fault),
            },
        }
    }

    /// Sets parameters, one pair after the other.
    #[tactic(auto, using(crate::proofs::Reports::pairs_none))]
    pub(crate) fn set_all(&mut self, pairs: &[(u8, u8)]) -> Report
        requires { length pairs.now ≤ MOST_PAIRS }
        ensures settings { self.new ≡ (spec.after_pairs pairs.now self.old).settings }
        ensures report { result.items ≡ (spec.after_pairs pairs.now self.old).report }
        ensures count { length result.items ≡ length pairs.now }
    {
        let mut report = Report::new();
        for (number, value) in pairs {
            report.push(self.set_one(*number, *value));
        }
        report
    }

    /// Takes the values of a profile, but for the speed (X.28 3.3).
    pub(crate) fn set_profile(&mut self, profile: Profile)
        ensures { self.new ≡ spec.with_profile profile self.old }
    {
        let params = self.params;
        self.put(Params::profile(profile, params.speed()));
    }

    /// The value of a parameter, if there is one.
    fn read_one(&self, number: u8) -> Setting
        ensures { result ≡ spec.reading_of self.now.params number }
    {
        Setting {
            number,
            outcome: self.params.get(number).ok_or(ParamFault::NoSuchParameter),
        }
    }

    /// The values of parameters, of all for no numbers.
    pub(crate) fn read_all(&self, numbers: &[u8]) -> Report
        requires { length numbers.now ≤ MOST_PAIRS }
        ensures report { result.items ≡ spec.readings self.now.params numbers.now }
        ensures count { length result.items ≤ max 18 (length numbers.now) }
    {
        if numbers.is_empty() {
            self.read_each(&ALL_NUMBERS)
        } else {
            self.read_each(numbers)
        }
    }

    fn read_each(&self, numbers: &[u8]) -> Report
        requires { length numbers.now ≤ MOST_PAIRS }
        ensures report { result.items ≡ map (spec.reading_of self.now.params) numbers.now }
        ensures count { length result.items ≡ length numbers.now }
    {
        let mut report = Report::new();
        for number in numbers {
            report.push(self.read_one(*number));
        }
        report
    }
}

/// The entries of a report that tell of a fault.
pub(crate) fn refused(report: &Report) -> Report
    ensures refused { result.items ≡ spec.refused report.now.items }
    ensures count { length result.items ≤ length report.now.items }
{
    let mut refused = Report::new();
    for setting in report.as_slice() {
        if setting.outcome.is_err() {
            refused.push(*setting);
        }
    }
    refused
}
