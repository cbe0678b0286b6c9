//! Answers to requests.
ghost use Rattle.std.specs.Prelude.{◌≡◌, IfOk, length};
ghost use Rattle.status_pages.specs.Answers.{answer_text, body_of, first_lines, refusal_line, words_of};

use crate::page::PAGE;
use crate::requests::{Refusal, Request, Wanted};
use itoa::Buffer;
use std::alloc::{AllocError, Global};

/// The fields of each answer, up to the number of its octets.
const FIELDS: &str =
    "Connection: close\r\nCache-Control: no-store\r\nX-Content-Type-Options: nosniff\r\nContent-Security-Policy: default-src 'none'; connect-src 'self'; script-src 'unsafe-inline'; style-src 'unsafe-inline'\r\nContent-Length: ";

/// The answer to a request, of which the body is the page, this status, or why there is none. Of HEAD it is the head
/// alone. After it the connection is to be closed.
pub fn answer(alloc: Global, request: Request, status: &str) -> Result<Vec<u8>, AllocError>
    ensures { IfOk result (λ answer. answer.items ≡ answer_text request (body_of request.wanted status.now)) }
{
    let body = body_of(request.wanted, status);
    let mut digits = Buffer::new();
    let mut answer = Vec::from_slice(alloc, first_lines(request.wanted).as_bytes())?;
    answer.extend_from_slice(FIELDS.as_bytes())?;
    answer.extend_from_slice(digits.format(body.len()).as_bytes())?;
    answer.extend_from_slice(b"\r\n\r\n")?;
    if !request.with_body {
        return Ok(answer);
    }
    answer.extend_from_slice(body.as_bytes())?;
    Ok(answer)
}

/// The body of an answer.
fn body_of<'a>(wanted: Wanted, status: &'a str) -> &'a str
    ensures { result.now ≡ body_of wanted status.entry.now }
{
    match wanted {
        Wanted::Picture => PAGE,
        Wanted::Status => status,
        Wanted::Nothing(refusal) => words_of(refusal),
    }
}

/// The first line of an answer, and the fields that others do not have.
fn first_lines(wanted: Wanted) -> &'static str
    ensures { result.now ≡ first_lines wanted }
{
    match wanted {
        Wanted::Picture => "HTTP/1.1 200 OK\r\nContent-Type: text/html; charset=utf-8\r\n",
        Wanted::Status => "HTTP/1.1 200 OK\r\nContent-Type: application/json\r\n",
        Wanted::Nothing(refusal) => refusal_line(refusal),
    }
}

fn refusal_line(refusal: Refusal) -> &'static str
    ensures { result.now ≡ refusal_line refusal }
{
    match refusal {
        Refusal::Malformed => "HTTP/1.1 400 Bad Request\r\nContent-Type: text/plain\r\n",
        Refusal::NotFound => "HTTP/1.1 404 Not Found\r\nContent-Type: text/plain\r\n",
        Refusal::NotAllowed =>
            "HTTP/1.1 405 Method Not Allowed\r\nAllow: GET, HEAD\r\nContent-Type: text/plain\r\n",
        Refusal::Late => "HTTP/1.1 408 Request Timeout\r\nContent-Type: text/plain\r\n",
        Refusal::TooLong =>
            "HTTP/1.1 431 Request Header Fields Too Large\r\nContent-Type: text/plain\r\n",
    }
}

/// Why there is no page, in words.
fn words_of(refusal: Refusal) -> &'static str
    ensures { result.now ≡ words_of refusal }
{
    match refusal {
        Refusal::Malformed => "This is no request.\n",
        Refusal::NotFound => "There are two pages: / and /status.json.\n",
        Refusal::NotAllowed => "GET and HEAD are served.\n",
        Refusal::Late => "The request did not come in time.\n",
        Refusal::TooLong => "The request is too long.\n",
    }
}
