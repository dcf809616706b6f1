//! What a reload is answered: the exchange is asked to read its subscription file again.

ghost use Rattle.std.specs.Prelude.{[], ◌++◌, codes, string_bytes};
ghost use Rattle.http_server.specs.Response.{IsBlank};
ghost use Rattle.xp_console.specs.Answers.{TellsReload};
ghost use Rattle.xp_console.specs.Responses.{Says};

use crate::responses::{Kind, be_unavailable, say, say_busy};
use http::StatusCode;
use http_server::Response;

/// What became of a reload.
#[derive(Drop)]
pub enum ReloadAnswer {
    /// The subscriptions that the file has now are in force. The text says what changed.
    Done(String),
    /// The subscriptions in force stay. The text says why.
    Refused(String),
    /// Another reload is under way, or this one was not answered within 10 seconds. The exchange may yet come to it.
    Busy,
}

/// Responds with what became of a reload.
pub(crate) fn tell_reload(answer: ReloadAnswer, response: &mut Response)
    requires { IsBlank response.old }
    ensures { TellsReload answer response.new }
{
    match answer {
        ReloadAnswer::Done(text) => say_line(response, StatusCode::OK, text),
        ReloadAnswer::Refused(text) => say_line(response, StatusCode::CONFLICT, text),
        ReloadAnswer::Busy => say_busy(response),
    }
}

/// Answers with this status and a text, as a line.
fn say_line(response: &mut Response, status: StatusCode, mut text: String)
    requires { IsBlank response.old }
    ensures { Says status Kind.Text [] (string_bytes text ++ codes "\n") response.new }
{
    match text.push_str("\n") {
        Ok(()) => say(response, status, Kind::Text, text.as_bytes()),
        Err(_) => be_unavailable(response),
    }
}
