//! The layout of text for a terminal.
ghost use Rattle.std.specs.Prelude.{◌≡◌, ◌+◌, ◌*◌, ◌≤◌, ◌∷◌, ◌++◌, length, replicate, if◌then◌else◌, [], Bool, min};
ghost use Rattle.std.specs.Bool.{OnTrue};
ghost use Rattle.arrayvec.specs.ArrayVec.{array_vec_len};
ghost use Rattle.x3_params.specs.Settings.{inserts_line_feed};
ghost use Rattle.pad_editing.specs.Shown as spec;

use arrayvec::ArrayVec;
use x3_params::{LineFeedInsertion, Params};

/// The most octets to which one is laid out: a graphic character after a carriage return and a line feed, each with
/// seven NULs.
pub const OCTET_LIMIT: usize = 17;

/// The layout of octets for a terminal.
pub struct Display;

impl Display {
    /// Lays octets out for a terminal that is at a column, and gives the column that it is then at (X.3 3.9, 3.10,
    /// 3.13, 3.14).
    ///
    /// A graphic character at the column of parameter 10 goes to a new line. A carriage return and a line feed have the
    /// NULs of parameters 9 and 14 after them. A carriage return also has a line feed after it if parameter 13 asks for
    /// it, in output or in echo. The column counts graphic characters since the carriage return, up to 65,535. A
    /// backspace takes one back.
    pub fn text<const N: usize>(
        octets: &[u8],
        echo: bool,
        params: &Params,
        column: u16,
        out: &mut ArrayVec<u8, N>,
    ) -> u16
        requires { array_vec_len out.old + OCTET_LIMIT * length octets.now ≤ N }
        ensures text { out.new.items ≡ out.old.items ++ (spec.shown octets.now echo params.now column).text }
        ensures column { result ≡ (spec.shown octets.now echo params.now column).column }
        ensures room { array_vec_len out.new ≤ array_vec_len out.old + OCTET_LIMIT * length octets.now }
    {
        let mut at = column;
        for octet in octets {
            at = show(*octet, echo, params, at, out);
        }
        at
    }

    /// Whether an octet is shown unchanged, and takes the next column: it is a graphic character, and not at the end of
    /// a line (X.3 3.10).
    pub fn is_plain(octet: u8, params: &Params, column: u16) -> bool
        ensures exact { result ≡ spec.is_plain octet params.now column }
        ensures shown { OnTrue result ((echo : Bool) → spec.shown (octet ∷ []) echo params.now column
            ≡ spec.shows (octet ∷ []) (min (column + 1) spec.last_column)) }
    {
        is_graphic(octet) && !ends_line(octet, params, column)
    }
}

/// Lays one octet out.
fn show<const N: usize>(
    octet: u8,
    echo: bool,
    params: &Params,
    column: u16,
    out: &mut ArrayVec<u8, N>,
) -> u16
    requires { array_vec_len out.old + OCTET_LIMIT ≤ N }
    ensures text { out.new.items ≡ out.old.items ++ (spec.shown_octet octet echo params.now column).text }
    ensures column { result ≡ (spec.shown_octet octet echo params.now column).column }
    ensures room { array_vec_len out.new ≤ array_vec_len out.old + OCTET_LIMIT }
{
    if ends_line(octet, params, column) {
        carriage_return(params, out);
        line_feed(params, out);
        out.push(octet);
        return 1;
    }
    place(octet, echo, params, column, out)
}

/// Whether an octet is a graphic character.
fn is_graphic(octet: u8) -> bool
    ensures { result ≡ spec.is_graphic octet }
{
    0x20 <= octet && octet <= 0x7E
}

/// Whether an octet is a graphic character at the end of a line.
fn ends_line(octet: u8, params: &Params, column: u16) -> bool
    ensures { result ≡ spec.ends_line octet params.now column }
{
    let width = params.fold_column();
    width > 0 && is_graphic(octet) && column == u16::from(width)
}

/// Shows the octet itself.
fn place<const N: usize>(
    octet: u8,
    echo: bool,
    params: &Params,
    column: u16,
    out: &mut ArrayVec<u8, N>,
) -> u16
    requires { array_vec_len out.old + 16 ≤ N }
    ensures text { out.new.items ≡ out.old.items ++ (spec.placed octet echo params.now column).text }
    ensures column { result ≡ (spec.placed octet echo params.now column).column }
    ensures room { array_vec_len out.new ≤ array_vec_len out.old + 16 }
{
    match octet {
        0x20..=0x7E => {
            out.push(octet);
            column.saturating_add(1)
        }
        b'\r' => {
            new_line(echo, params, out);
            0
        }
        b'\n' => {
            line_feed(params, out);
            column
        }
        0x08 => {
            out.push(octet);
            column.saturating_sub(1)
        }
        _ => {
            out.push(octet);
            column
        }
    }
}

/// A carriage return, and a line feed where one is inserted.
fn new_line<const N: usize>(echo: bool, params: &Params, out: &mut ArrayVec<u8, N>)
    requires { array_vec_len out.old + 16 ≤ N }
    ensures text { out.new.items ≡ out.old.items ++ (spec.carriage_return params.now
        ++ (if inserts_line_feed params.now (spec.place echo) then spec.line_feed params.now else [])) }
    ensures room { array_vec_len out.new ≤ array_vec_len out.old + 16 }
{
    carriage_return(params, out);
    if params.inserts_line_feed(insertion_place(echo)) {
        line_feed(params, out);
    }
}

/// Where a line feed is inserted, in echo or in output.
fn insertion_place(echo: bool) -> LineFeedInsertion
    ensures { result ≡ spec.place echo }
{
    if echo {
        LineFeedInsertion::InEcho
    } else {
        LineFeedInsertion::ToTerminal
    }
}

/// A carriage return with its padding.
fn carriage_return<const N: usize>(params: &Params, out: &mut ArrayVec<u8, N>)
    requires { array_vec_len out.old + 8 ≤ N }
    ensures text { out.new.items ≡ out.old.items ++ spec.carriage_return params.now }
    ensures room { array_vec_len out.new ≤ array_vec_len out.old + 8 }
{
    padded(b'\r', params.return_padding(), out);
}

/// A line feed with its padding.
fn line_feed<const N: usize>(params: &Params, out: &mut ArrayVec<u8, N>)
    requires { array_vec_len out.old + 8 ≤ N }
    ensures text { out.new.items ≡ out.old.items ++ spec.line_feed params.now }
    ensures room { array_vec_len out.new ≤ array_vec_len out.old + 8 }
{
    padded(b'\n', params.line_feed_padding(), out);
}

/// An octet with NULs after it.
#[tactic(auto, using(crate::proofs::LaidOut::padding_more))]
fn padded<const N: usize>(octet: u8, nuls: u8, out: &mut ArrayVec<u8, N>)
    requires { array_vec_len out.old + 1 + nuls ≤ N }
    ensures text { out.new.items ≡ out.old.items ++ octet ∷ replicate nuls 0 }
    ensures room { array_vec_len out.new ≡ array_vec_len out.old + 1 + nuls }
{
    out.push(octet);
    for _ in 0..nuls {
        out.push(0);
    }
}
