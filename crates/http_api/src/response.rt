//! Responses, byte for byte.
ghost use Rattle.std.specs.Prelude.{◌≡◌, ◌++◌, [], IfOk, false, if◌then◌else◌, length, true};
ghost use Rattle.http_api.specs.Response.{CanDeny, IsDeniedResponse, bad_line, bad_response, denied_line, denied_response, head_of, is_raw, plain_response, response, response_of};
ghost use Rattle.http_api.specs.ReplyText.{line_of};
ghost use Rattle.desk_words.specs.declared.reply.Reply.TheVariants.{Memory as WantOfMemory};

use crate::denied::Denied;
use crate::opening::{Methods, Opening};
use crate::path::path_of;
use crate::reply_text::{put_line, rest_of};
use crate::response_pieces::Response;
use crate::routes::Routes;
use crate::status::Status;
use desk_words::Reply;
use http_wire::Refusal;
use pb_base::{Body, Memory, Text};
use std::alloc::Global;

// Room for most lines.
const LINE_ROOM: usize = 64;

// Room for the longest head with such a line.
const ROOM: usize = 256;

/// The response of a reply. It says that the connection closes where `close` is true, and leaves the bytes of the body out where `bare` is true.
pub fn response_of(alloc: Global, reply: Reply, close: bool, bare: bool) -> Result<Response, Memory>
    ensures { IfOk result (λ response. response ≡ response_of reply close bare) }
{
    let opening = Opening {
        status: Status::of(&reply),
        raw: is_raw(&reply),
        methods: Methods::Untold,
        close,
    };
    let line = line_of(alloc, &reply)?;
    response(alloc, opening, line.bytes(), rest_of(alloc, reply), bare)
}

// The line of a reply. The head comes first and says how long the body is, so the line is written apart.
fn line_of(alloc: Global, reply: &Reply) -> Result<Text, Memory>
    ensures { IfOk result (λ line. line ≡ line_of reply.now) }
{
    let mut line = Text::with_room(alloc, LINE_ROOM)?;
    put_line(&mut line, reply)?;
    Ok(line)
}

/// The response of a message that asks for nothing. `path` is the message's target; a wrong method is told the methods of its path.
pub fn denied_response(
    alloc: Global,
    denied: Denied,
    path: &[u8],
    close: bool,
    bare: bool,
) -> Result<Body, Memory>
    requires { CanDeny denied path.now }
    ensures { IfOk result (λ body. IsDeniedResponse denied path.now close bare body) }
{
    let routes = Routes::new(alloc)?;
    routes.denied_response(alloc, denied, path, close, bare)
}

impl Routes {
    /// The response of a message that asks for nothing. `path` is the message's target; a wrong method is told the methods of its path.
    pub fn denied_response(
        &self,
        alloc: Global,
        denied: Denied,
        path: &[u8],
        close: bool,
        bare: bool,
    ) -> Result<Body, Memory>
        requires { CanDeny denied path.now }
        ensures { IfOk result (λ body. IsDeniedResponse denied path.now close bare body) }
    {
        match denied {
            Denied::WrongMethod => self.wrong_method_response(alloc, path, close, bare),
            Denied::NoPath => denied_with(alloc, Denied::NoPath, Methods::Untold, close, bare),
            Denied::BadCaller => denied_with(
                alloc,
                Denied::BadCaller,
                Methods::Untold,
                close,
                bare,
            ),
            Denied::BadBody => denied_with(alloc, Denied::BadBody, Methods::Untold, close, bare),
        }
    }

    fn wrong_method_response(
        &self,
        alloc: Global,
        path: &[u8],
        close: bool,
        bare: bool,
    ) -> Result<Body, Memory>
        requires { CanDeny Denied.WrongMethod path.now }
        ensures { IfOk result (λ body. IsDeniedResponse Denied.WrongMethod path.now close bare body) }
    {
        match self.find(path_of(path)) {
            Some(route) => denied_with(alloc, Denied::WrongMethod, Methods::of(route), close, bare),
            None => unreachable!(),
        }
    }
}

fn denied_with(
    alloc: Global,
    denied: Denied,
    methods: Methods,
    close: bool,
    bare: bool,
) -> Result<Body, Memory>
    ensures { IfOk result (λ body. body ≡ denied_response denied methods close bare) }
{
    let opening = Opening {
        status: Status::of_denied(denied),
        raw: false,
        methods,
        close,
    };
    plain(alloc, opening, denied_line(denied), bare)
}

fn denied_line(denied: Denied) -> &'static [u8]
    ensures { result.now ≡ denied_line denied }
{
    match denied {
        Denied::NoPath => b"no such path\n",
        Denied::WrongMethod => b"wrong method\n",
        Denied::BadCaller => b"bad caller\n",
        Denied::BadBody => b"bad body\n",
    }
}

/// The response to what stands in a stream and is no message. The connection closes after it.
pub fn bad_response(alloc: Global, refusal: Refusal) -> Result<Body, Memory>
    ensures { IfOk result (λ body. body ≡ bad_response refusal) }
{
    let opening = Opening {
        status: Status::of_refusal(refusal),
        raw: false,
        methods: Methods::Untold,
        close: true,
    };
    plain(alloc, opening, bad_line(refusal), false)
}

fn bad_line(refusal: Refusal) -> &'static [u8]
    ensures { result.now ≡ bad_line refusal }
{
    match refusal {
        Refusal::Malformed => b"bad request\n",
        Refusal::LongBody => b"body too large\n",
        Refusal::LongHead => b"head too large\n",
        Refusal::Coded => b"transfer encoding\n",
    }
}

/// The response of want of memory. It takes none.
pub fn memory_response(close: bool, bare: bool) -> &'static [u8]
    ensures { result.now ≡ response_of WantOfMemory close bare }
{
    match (close, bare) {
        (true, true) => {
            "HTTP/1.1 500 Internal Server Error\r\nContent-Type: text/plain\r\nContent-Length: 15\r\nConnection: close\r\n\r\n".as_bytes()
        }
        (true, false) => {
            "HTTP/1.1 500 Internal Server Error\r\nContent-Type: text/plain\r\nContent-Length: 15\r\nConnection: close\r\n\r\nwant of memory\n".as_bytes()
        }
        (false, true) => {
            "HTTP/1.1 500 Internal Server Error\r\nContent-Type: text/plain\r\nContent-Length: 15\r\n\r\n".as_bytes()
        }
        (false, false) => {
            "HTTP/1.1 500 Internal Server Error\r\nContent-Type: text/plain\r\nContent-Length: 15\r\n\r\nwant of memory\n".as_bytes()
        }
    }
}

// The response whose body is a line with what stands behind it.
fn response(
    alloc: Global,
    opening: Opening,
    line: &[u8],
    rest: Body,
    bare: bool,
) -> Result<Response, Memory>
    ensures { IfOk result (λ r. r ≡ response opening (line.now ++ rest) bare) }
{
    match front(alloc, opening, line, rest.as_slice(), bare) {
        Ok(front) if bare => Ok(Response::whole(alloc, front)),
        Ok(front) => Ok(Response::of(front, rest)),
        Err(Memory) => Err(Memory),
    }
}

// The response whose body is a line alone.
fn plain(alloc: Global, opening: Opening, line: &[u8], bare: bool) -> Result<Body, Memory>
    ensures { IfOk result (λ body. body ≡ response opening line.now bare) }
{
    front(alloc, opening, line, &[], bare)
}

// The head of a response whose body is a line with what stands behind it, and the line unless the body is left out.
fn front(
    alloc: Global,
    opening: Opening,
    line: &[u8],
    rest: &[u8],
    bare: bool,
) -> Result<Body, Memory>
    ensures { let head = head_of opening (length (line.now ++ rest.now)) in
        IfOk result (λ body. body ≡ head ++ (if bare then [] else line.now)) }
{
    let mut text = Text::with_room(alloc, ROOM)?;
    opening.put(&mut text, line.len() + rest.len())?;
    if bare {
        return Ok(text.into_body());
    }
    text.put(line)?;
    Ok(text.into_body())
}

fn is_raw(reply: &Reply) -> bool
    ensures { result ≡ is_raw reply.now }
{
    matches!(reply, Reply::Raw(_))
}
