//! Which line calls go to, and how many nodes are looked at.
use address_routes::{LineNo, RouteFault, Routes};
use packet_codec::Address;
use std::alloc::Global;

/// Adds a route. Whether it is refused by this fault, or by none.
fn adds(routes: &mut Routes, prefix: &[u8], line: u16, fault: Option<RouteFault>) -> bool {
    match Address::read(prefix) {
        Ok(prefix) => routes.add(&prefix, LineNo(line)).err() == fault,
        Err(_) => false,
    }
}

// An address, the line of its calls, and how many nodes are looked at for it.
type Lookup = (&'static [u8], Option<LineNo>, u8);

const LOOKUPS: &[Lookup] = &[
    (b"2001", Some(LineNo(2)), 5),
    (b"2002", Some(LineNo(1)), 4),
    (b"3", None, 1),
];

// The same where a prefix begins the next one, and that a third.
const NESTED: &[Lookup] = &[
    (b"2001", Some(LineNo(3)), 5),
    (b"20015", Some(LineNo(3)), 5),
    (b"2002", Some(LineNo(2)), 4),
    (b"21", Some(LineNo(1)), 2),
    (b"3", None, 1),
];

fn is_found(routes: &Routes, lookup: &Lookup) -> bool {
    let (digits, line, looks) = *lookup;
    match Address::read(digits) {
        Ok(address) => routes.find(&address) == line
            && routes.find_looks(&address) == (line, looks),
        Err(_) => false,
    }
}

fn are_found(routes: &Routes, lookups: &[Lookup]) -> bool {
    let mut found = true;
    for lookup in lookups {
        found = found && is_found(routes, lookup);
    }
    found
}

/// Whether of three prefixes, of which each begins the next, the longest is taken.
fn takes_the_longest_of_three(routes: &mut Routes) -> bool {
    adds(routes, b"2", 1, None)
        && adds(routes, b"20", 2, None)
        && adds(routes, b"2001", 3, None)
        && are_found(routes, NESTED)
}

fn nest(alloc: Global) -> bool {
    match Routes::new(alloc) {
        Ok(mut routes) => takes_the_longest_of_three(&mut routes),
        Err(_) => false,
    }
}

/// Whether the route of the longest prefix is taken, and a prefix has one route.
fn takes_the_longest(routes: &mut Routes) -> bool {
    adds(routes, b"20", 1, None)
        && adds(routes, b"2001", 2, None)
        && adds(routes, b"20", 3, Some(RouteFault::Duplicate))
        && are_found(routes, LOOKUPS)
}

fn adds_number(routes: &mut Routes, number: u16) -> bool {
    let digits = [
        (number / 100 % 10) as u8,
        (number / 10 % 10) as u8,
        (number % 10) as u8,
    ];
    routes.add(&Address::new(&digits), LineNo(number)).is_ok()
}

/// Whether there is room for 254 routes more, of three digits, and then for none.
fn has_an_end(routes: &mut Routes) -> bool {
    let mut added = true;
    for number in 300..554u16 {
        added = added && adds_number(routes, number);
    }
    added && adds(routes, b"9", 0, Some(RouteFault::Full))
}

fn follow_the_rules(alloc: Global) -> bool {
    match Routes::new(alloc) {
        Ok(mut routes) => takes_the_longest(&mut routes) && has_an_end(&mut routes),
        Err(_) => false,
    }
}

#[test]
fn the_longest_of_256_prefixes_is_taken(rt: HostRuntime) {
    assert!(rt; nest(rt.alloc()) && follow_the_rules(rt.alloc()));
}
