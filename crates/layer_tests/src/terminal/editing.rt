//! What is typed, the echo and the display.
use arrayvec::ArrayVec;
use pad_editing::{Block, Display, Editor};
use x3_params::{Params, Profile};

// Parameters, each by its number and its value.
type Changes<'a> = &'a [(u8, u8)];

/// The parameters of the profile TRANSPARENT with these in their place, where all take their values.
fn params_with(changes: Changes<'_>) -> Params {
    let mut params = Params::profile(Profile::Transparent, 14);
    for (number, value) in changes {
        let _ = params.set(*number, *value);
    }
    params
}

// A key, its echo and its block, which is empty for none.
type Key = (u8, &'static [u8], &'static [u8]);

// Parameters 2, 3, 15 and 16 are 1, 2, 1 and 127.
const EDITING: Changes<'static> = &[(2, 1), (3, 2), (15, 1), (16, 127)];

const KEYS: &[Key] = &[
    (0x7F, b"", b""),
    (b'H', b"H", b""),
    (b'E', b"E", b""),
    (b'X', b"X", b""),
    (0x7F, b"\x08 \x08", b""),
    (b'L', b"L", b""),
    (b'L', b"L", b""),
    (b'O', b"O", b""),
    (b'\r', b"\r", b"HELLO\r"),
    (0x7F, b"", b""),
    (b'A', b"A", b""),
    (18, b"\r\nA", b""),
    (24, b"XXX\r\n", b""),
    (b'A', b"A", b""),
    (b'\r', b"\r", b"A\r"),
];

fn keys() -> &'static [Key] {
    KEYS
}

/// Whether a key has this echo and this block.
fn types(editor: &mut Editor, params: &Params, key: &Key) -> bool {
    let (octet, echo, block) = *key;
    let out = editor.key(octet, params);
    out.echo.as_slice() == echo && is_block(&out.block, block)
}

/// Whether a block has these octets, or there is none.
fn is_block(block: &Option<Block>, octets: &[u8]) -> bool {
    match block {
        Some(block) => block.as_slice() == octets,
        None => octets.is_empty(),
    }
}

#[test]
fn a_text_is_edited_and_echoed(rt: HostRuntime) {
    let params = params_with(EDITING);
    let mut editor = Editor::new();
    for (place, key) in keys().iter().enumerate() {
        assert!(rt; types(&mut editor, &params, key), "key {place}");
    }
}

/// Whether octets, as output or as an echo, are laid out from column 0 as this text, with this column behind it.
fn is_laid_out(with: Changes<'_>, octets: &[u8], echo: bool, text: &[u8], column: u16) -> bool {
    let mut out = ArrayVec::<u8, 85>::new();
    octets.len() <= 5
        && Display::text(octets, echo, &params_with(with), 0, &mut out) == column
        && out.as_slice() == text
}

// A carriage return has two NULs behind it, and a line feed one.
const PADDED: Changes<'static> = &[(9, 2), (13, 1), (14, 1)];

#[test]
fn octets_are_laid_out(rt: HostRuntime) {
    assert!(rt; is_laid_out(&[(10, 4)], b"ABCDE", false, b"ABCD\r\nE", 1));
    assert!(rt; is_laid_out(PADDED, b"\r", false, b"\r\0\0\n\0", 0));
    assert!(rt; is_laid_out(PADDED, b"\r", true, b"\r\0\0", 0));
}
