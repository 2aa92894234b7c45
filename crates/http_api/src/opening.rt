//! Heads of responses.
ghost use Rattle.std.specs.Prelude.{◌≡◌, ◌++◌, OnOk};
ghost use Rattle.http_api.specs.Response.{allow_line, close_line, content_fields, head_of, methods_of, status_line, type_of};

use crate::route::{BookPage, DraftPage, Route};
use crate::status::Status;
use pb_base::{Memory, Text};

/// What the head of a response says beside the length of its body.
#[derive(Clone, Copy)]
pub struct Opening {
    pub status: Status,
    /// Whether the body is the text of a draft or of a book.
    pub raw: bool,
    pub methods: Methods,
    /// Whether the connection closes after the response.
    pub close: bool,
}

/// The methods that a response tells a path to have.
#[derive(Clone, Copy)]
pub enum Methods {
    Untold,
    Get,
    Post,
    GetPut,
    GetPost,
}

impl Methods {
    /// The methods of a path.
    pub fn of(route: Route) -> Methods
        ensures { result ≡ methods_of route }
    {
        match route {
            Route::Draft(_, DraftPage::Text) => Methods::GetPut,
            Route::Draft(_, DraftPage::Owner) => Methods::GetPost,
            Route::Draft(_, DraftPage::Check) => Methods::Post,
            Route::Draft(_, DraftPage::Release) => Methods::Post,
            Route::Book(_, BookPage::Text) => Methods::Get,
            Route::Book(_, BookPage::Certificate) => Methods::Get,
            Route::Book(_, BookPage::Withdraw) => Methods::Post,
            Route::Book(_, BookPage::Free) => Methods::Post,
            Route::Book(_, BookPage::Why) => Methods::Post,
            Route::Order(_) => Methods::GetPut,
            Route::Listed(_) => Methods::Get,
            Route::OrdersAfter(_) => Methods::Get,
        }
    }

    fn allow_line(self) -> &'static [u8]
        ensures { result.now ≡ allow_line self }
    {
        match self {
            Methods::Untold => b"",
            Methods::Get => b"Allow: GET\r\n",
            Methods::Post => b"Allow: POST\r\n",
            Methods::GetPut => b"Allow: GET, PUT\r\n",
            Methods::GetPost => b"Allow: GET, POST\r\n",
        }
    }
}

impl Opening {
    /// Puts the head behind a text. It says that the body has this number of bytes.
    pub fn put(self, text: &mut Text, bytes: usize) -> Result<(), Memory>
        ensures { OnOk result (text.new ≡ text.old ++ head_of self bytes) }
    {
        put_status_line(text, self.status)?;
        put_content_fields(text, self.raw, bytes)?;
        text.put(self.methods.allow_line())?;
        text.put(close_line(self.close))?;
        text.put(b"\r\n")?;
        Ok(())
    }
}

fn put_status_line(text: &mut Text, status: Status) -> Result<(), Memory>
    ensures { OnOk result (text.new ≡ text.old ++ status_line status) }
{
    text.put(b"HTTP/1.1 ")?;
    text.put(status.code().as_str().as_bytes())?;
    text.put(b" ")?;
    text.put(status.phrase())?;
    text.put(b"\r\n")?;
    Ok(())
}

fn put_content_fields(text: &mut Text, raw: bool, bytes: usize) -> Result<(), Memory>
    ensures { OnOk result (text.new ≡ text.old ++ content_fields raw bytes) }
{
    text.put(b"Content-Type: ")?;
    text.put(type_of(raw))?;
    text.put(b"\r\nContent-Length: ")?;
    text.put_number(bytes as u64)?;
    text.put(b"\r\n")?;
    Ok(())
}

fn type_of(raw: bool) -> &'static [u8]
    ensures { result.now ≡ type_of raw }
{
    if raw { b"text/csv" } else { b"text/plain" }
}

fn close_line(close: bool) -> &'static [u8]
    ensures { result.now ≡ close_line close }
{
    if close { b"Connection: close\r\n" } else { b"" }
}
