//! Numbers of windows.
use flow_window::{Mod8, Mod128, Modulus, Offer, OutOfWindow, RecvWindow, SendWindow};

// What is done at a window that sends, or looked at, with its answer.
#[derive(Clone, Copy)]
enum Act {
    // the next number, if there is room for it
    Next(Option<u8>),
    // an acknowledgement, and how many numbers it covers
    Ack(u8, Result<u8, OutOfWindow>),
    GoBack(u8),
    Clear,
    // the oldest number and the next one
    Numbers(u8, u8),
}

use Act::{Ack, Clear, GoBack, Next, Numbers};

fn fit<M: Modulus>(window: &mut SendWindow<M>, acts: &[Act]) -> bool {
    let mut same = true;
    for act in acts {
        same = same && fits(window, *act);
    }
    same
}

fn fits<M: Modulus>(window: &mut SendWindow<M>, act: Act) -> bool {
    match act {
        Next(number) => next_of(window) == number,
        Ack(number, answer) => window.ack(number) == answer,
        GoBack(number) => goes_back(window, number),
        Clear => {
            window.clear();
            true
        }
        Numbers(oldest, next) => window.oldest() == oldest && window.next_number() == next,
    }
}

fn next_of<M: Modulus>(window: &mut SendWindow<M>) -> Option<u8> {
    if window.room() {
        Some(window.take_number())
    } else {
        None
    }
}

fn goes_back<M: Modulus>(window: &mut SendWindow<M>, number: u8) -> bool {
    let there = window.contains(number);
    if there {
        window.go_back(number);
    }
    there
}

const MODULO_8: &[Act] = &[
    Next(Some(0)),
    Next(Some(1)),
    Next(Some(2)),
    Next(Some(3)),
    Next(Some(4)),
    Next(Some(5)),
    Next(Some(6)),
    Next(None),
    Ack(7, Ok(7)),
    Next(Some(7)),
    Next(Some(0)),
    Ack(2, Err(OutOfWindow)),
    Ack(1, Ok(2)),
];

const MODULO_128: &[Act] = &[
    Next(Some(0)),
    Next(Some(1)),
    Ack(128, Err(OutOfWindow)),
    GoBack(1),
    Numbers(0, 1),
    Clear,
    Next(Some(0)),
];

#[test]
fn windows_number_and_acknowledge(rt: HostRuntime) {
    assert!(rt; fit(&mut SendWindow::<Mod8>::new(7), MODULO_8));
    assert!(rt; fit(&mut SendWindow::<Mod128>::new(3), MODULO_128));
}

/// Whether a window that receives takes the expected number alone, and expects 0 once it is cleared.
fn takes_the_expected(window: &mut RecvWindow<Mod8>) -> bool {
    let taken = window.offer(0) == Offer::InOrder && window.offer(2) == Offer::OutOfOrder;
    let next = window.expected();
    window.clear();
    taken && next == 1 && window.expected() == 0
}

#[test]
fn windows_take_the_expected_number(rt: HostRuntime) {
    assert!(rt; takes_the_expected(&mut RecvWindow::<Mod8>::new()));
}
