//! Whether in each call what each end took matches what the other one sent.
ghost use Rattle.std.specs.Prelude.{◌↔◌, IsTrue, map};
ghost use Rattle.call_records.specs.RecordView.{shown, pair_of};
ghost use Rattle.call_records.specs.Pairs.{PairMatches, AllMatch};

use crate::record::{Pair, Record};
use epochs::matches;

/// Whether the two records of each pair match, both ways.
pub fn all_match(records: &[Record], pairs: &[Pair]) -> bool
    ensures { IsTrue result ↔ AllMatch (map shown records.now) (map pair_of pairs.now) }
{
    for pair in pairs {
        if !pair_matches(records, pair) {
            return false;
        }
    }
    true
}

/// Whether the two records of a pair are there and match, both ways.
fn pair_matches(records: &[Record], pair: &Pair) -> bool
    ensures { IsTrue result ↔ PairMatches (map shown records.now) (pair_of pair.now) }
{
    match (records.get(pair.caller), records.get(pair.callee)) {
        (Some(caller), Some(callee)) => matches(&callee.taken, &caller.sent)
            && matches(&caller.taken, &callee.sent),
        _ => false,
    }
}
