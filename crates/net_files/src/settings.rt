//! Lists of parameters and values, as the command `SET` has them: `2:0,3:2` (X.28 3.3.2).
ghost use Rattle.std.specs.Prelude.{◌≡◌, IfOk, map};
ghost use Rattle.net_files.specs.Networks.{SettingsForm, pair_of};
ghost use Rattle.net_files.specs.DocumentAnswers.{Makes};

use crate::fault::ProgFault;
use net_config::Setting;
use std::alloc::{AllocError, Global};
use x28_commands::read_pairs;

/// How many octets a list has at most: 18 pairs of two numbers of three digits.
const LIST_LIMIT: usize = 143;

/// Reads a list of pairs, each a number and a value of 1 to 3 digits and at most 255. No text is no pairs.
pub(crate) fn read_settings(alloc: Global, text: &str) -> Result<Vec<Setting>, ProgFault>
    ensures { Makes (λ settings. SettingsForm text.now settings.items) result }
{
    if text.is_empty() {
        return Ok(Vec::new(alloc));
    }
    if text.len() > LIST_LIMIT {
        return Err(ProgFault::NetText);
    }
    match read_pairs(text.as_bytes()) {
        Ok(pairs) => Ok(settings_of(alloc, pairs.as_slice())?),
        Err(_) => Err(ProgFault::NetText),
    }
}

/// The settings of some pairs.
fn settings_of(alloc: Global, pairs: &[(u8, u8)]) -> Result<Vec<Setting>, AllocError>
    ensures { IfOk result (λ settings. map pair_of settings.items ≡ pairs.now) }
{
    let mut settings = Vec::new(alloc);
    for (number, value) in pairs {
        settings.push(Setting {
            number: *number,
            value: *value,
        })?;
    }
    Ok(settings)
}
