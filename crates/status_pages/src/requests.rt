//! What the head of a request asks for.
ghost use Rattle.std.specs.Prelude.{◌≡◌, ◌≤◌, length};
ghost use Rattle.httparse.specs.Grammar.{RequestHead};
ghost use Rattle.httparse.specs.Spans.{IsRequestAt, IsRequestWithin};
ghost use Rattle.status_pages.specs.Requests.{IsRequestIn, refused, refusal_of, asked_by, asked, page_at, has_host};

use http1::fields::KnownFields;
use httparse::spans::{EMPTY_HEADER_SPAN, HeaderSpan, RequestSpans, parse_request};
use httparse::{Error, Status};

/// How many octets the head of a request has at most.
pub(crate) const MOST_OCTETS: usize = 8192;

/// How many fields it has at most.
const MOST_FIELDS: usize = 64;

/// Why a request gets no page.
#[derive(Clone, Copy, PartialEq, Eq)]
pub enum Refusal {
    /// It is none, or does not name one host.
    Malformed,
    /// There is no such page.
    NotFound,
    /// It is neither GET nor HEAD.
    NotAllowed,
    /// It did not come in time.
    Late,
    /// Its head is too long.
    TooLong,
}

/// What is wanted.
#[derive(Clone, Copy, PartialEq, Eq)]
pub enum Wanted {
    /// The page with the picture.
    Picture,
    /// The status as JSON.
    Status,
    Nothing(Refusal),
}

/// What is to be answered: a page or why there is none, and whether the body is wanted, or its head alone.
#[derive(Clone, Copy, PartialEq, Eq)]
pub struct Request {
    pub wanted: Wanted,
    pub with_body: bool,
}

/// What is to be answered to a request that does not come in time.
pub const LATE: Request = Request {
    wanted: Wanted::Nothing(Refusal::Late),
    with_body: true,
};

fn refused(refusal: Refusal) -> Request
    ensures { result ≡ refused refusal }
{
    Request {
        wanted: Wanted::Nothing(refusal),
        with_body: true,
    }
}

/// What these octets ask for, once that is certain.
pub(crate) fn request_in(octets: &[u8]) -> Option<Request>
    ensures { IsRequestIn octets.now result }
{
    let mut headers = [EMPTY_HEADER_SPAN; MOST_FIELDS];
    match parse_request(octets, &mut headers) {
        Ok(Status::Complete(head)) => Some(asked_by(octets, &head, &headers)),
        Ok(Status::Partial) if octets.len() < MOST_OCTETS => None,
        Ok(Status::Partial) => Some(refused(Refusal::TooLong)),
        Err(error) => Some(refused(refusal_of(error))),
    }
}

/// Why octets that are no head are refused.
fn refusal_of(error: Error) -> Refusal
    ensures { result ≡ refusal_of error }
{
    match error {
        Error::TooManyHeaders => Refusal::TooLong,
        _ => Refusal::Malformed,
    }
}

/// What a head asks for.
fn asked_by(octets: &[u8], head: &RequestSpans, headers: &[HeaderSpan]) -> Request
    requires within { IsRequestWithin octets.now headers.now head.now }
    requires fits { head.now.len ≤ length octets.now }
    ensures { (h : RequestHead) → IsRequestAt octets.now headers.now head.now h → result ≡ asked_by h }
{
    let fields = KnownFields::from_spans(octets, &headers[..head.headers]);
    if !has_host(head.version, fields.hosts) {
        return refused(Refusal::Malformed);
    }
    asked(head.method.of(octets), head.path.of(octets))
}

/// Whether so many fields name a host as must. HTTP/1.0 may leave it out.
fn has_host(minor: u8, hosts: u8) -> bool
    ensures { result ≡ has_host minor hosts }
{
    hosts == 1 || (hosts == 0 && minor == 0)
}

/// What a method asks of a target.
fn asked(method: &[u8], target: &[u8]) -> Request
    ensures { result ≡ asked method.now target.now }
{
    if method == b"GET".as_slice() {
        return Request {
            wanted: page_at(target),
            with_body: true,
        };
    }
    if method == b"HEAD".as_slice() {
        return Request {
            wanted: page_at(target),
            with_body: false,
        };
    }
    refused(Refusal::NotAllowed)
}

/// The page at a target.
fn page_at(target: &[u8]) -> Wanted
    ensures { result ≡ page_at target.now }
{
    if target == b"/".as_slice() {
        Wanted::Picture
    } else if target == b"/status.json".as_slice() {
        Wanted::Status
    } else {
        Wanted::Nothing(Refusal::NotFound)
    }
}
