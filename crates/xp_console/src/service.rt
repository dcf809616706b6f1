//! The console as a service of HTTP, over a source of the exchange's status.

ghost use Rattle.std.specs.Prelude.{◌≡◌, [], IfOk, OnErr, OnOk, string_bytes};
ghost use Rattle.http.specs.Request.{body_of, head_of};
ghost use Rattle.http_server.specs.Response.{IsBlank};
ghost use Rattle.xp_console.specs.Answers.{Grants, IsTextOf, Reloads, Responds, Serves, Shows, Stops, Tells, kind_of as kind_in, lacks_text as text_of_lack};
ghost use Rattle.xp_console.specs.Responses.{Says};
ghost use Rattle.xp_console.specs.declared.requests.Answer.TheVariants.{Granted};
ghost use Rattle.xp_console.specs.declared.reload.ReloadAnswer.{ReloadAnswer};
ghost use Rattle.xp_console.specs.declared.requests.Resource.TheVariants.{Reload, Stop};
ghost use Rattle.xp_console.specs.declared.status.ExchangeStatus.{ExchangeStatus};

use crate::json::push_json;
use crate::metrics::push_metrics;
use crate::page::page;
use crate::reload::{ReloadAnswer, tell_reload};
use crate::requests::{Answer, Format, Resource, answer_to};
use crate::responses::{Kind, be_unavailable, fill, say, say_allowed};
use crate::status::ExchangeStatus;
use crate::table::push_tables;
use bytes::Bytes;
use http::{Request, StatusCode};
use http_server::{Response, Service};
use std::alloc::{AllocError, Global};
use std::net::IpAddr;

/// What the console is over: it shows one moment of the exchange, stops it, and has its subscription file read again.
pub trait StatusSource {
    ghost use Rattle.std.specs.declared.net.ip_addr.IpAddr.{IpAddr};
    ghost use Rattle.std.specs.Prelude.{ℕ, List};
    ghost use Rattle.http.specs.declared.request.Parts.{Parts};
    ghost use Rattle.xp_console.specs.Requests.{IsAnswer};
    ghost use Rattle.xp_console.specs.declared.requests.Answer.TheVariants.{Granted};
    ghost use Rattle.xp_console.specs.declared.requests.Resource.TheVariants.{Reload, Stop};

    // From the first state, what is shown may be this, and leaves the second state.
    ghost shows: { Self → ExchangeStatus → Self → Type 0 };

    // From the first state, a stop leaves the second.
    ghost stops: { Self → Self → Type 0 };

    // From the first state, a reload may be answered this, and leaves the second state.
    ghost reloads: { Self → ReloadAnswer → Self → Type 0 };

    // What holds where the source is asked for a stop.
    ghost may_stop: { Type 0 };

    // It holds where a console grants a stop to a request.
    ghost granted: { (own : IpAddr) → (head : Parts) → (body : List ℕ) → IsAnswer own head body (Granted Stop) → may_stop };

    // What holds where the source is asked for a reload.
    ghost may_reload: { Type 0 };

    // It holds where a console grants a reload to a request.
    ghost reload_granted: { (own : IpAddr) → (head : Parts) → (body : List ℕ) → IsAnswer own head body (Granted Reload) → may_reload };

    /// What the exchange shows of this moment.
    ///
    /// # Errors
    ///
    /// `AllocError` if an allocation fails. Nothing is changed then.
    fn status(&mut self, alloc: Global) -> Result<ExchangeStatus, AllocError>
        ensures ok { IfOk result (λ status. shows self.old status self.new) }
        ensures err { OnErr result (self.new ≡ self.old) };

    /// Asks the exchange to stop: it ends its live calls, each with its record, and then ends. It does not wait for that.
    fn stop(&mut self)
        requires { may_stop }
        ensures { stops self.old self.new };

    /// Asks the exchange to read its subscription file again, and waits for what becomes of that, for 10 seconds at most.
    fn reload(&mut self) -> ReloadAnswer
        requires { may_reload }
        ensures { reloads self.old result self.new };
}

/// The console's service: it answers requests by what a source shows.
#[derive(Drop)]
pub struct ConsoleService<S> {
    pub alloc: Global,
    /// The address at which the console listens.
    pub own: IpAddr,
    pub source: S,
}

impl<S: StatusSource> ConsoleService<S> {
    /// Answers a request by what the source shows.
    pub fn answer(&mut self, request: &Request<Bytes>, response: &mut Response)
        requires { IsBlank response.old }
        ensures served { Serves S.shows S.stops S.reloads self.old.own (head_of request.now) (body_of request.now) self.old.source response.new self.new.source }
        ensures own { self.new.own ≡ self.old.own }
    {
        let answer = answer_to(self.own, request);
        respond(self.alloc, &mut self.source, answer, response);
    }
}

impl<S: StatusSource> Service for ConsoleService<S> {
    ghost answers = { λ old request response new.
        Serves S.shows S.stops S.reloads old.own (head_of request) (body_of request) old.source response new.source × (new.own ≡ old.own) };

    fn call(
        &mut self,
        request: &Request<Bytes>,
        response: &mut Response,
    ) -> Result<(), AllocError> {
        self.answer(request, response);
        Ok(())
    }
}

/// Responds with an answer.
fn respond<S: StatusSource>(alloc: Global, source: &mut S, answer: Answer, response: &mut Response)
    requires blank { IsBlank response.old }
    requires stop { answer ≡ Granted Stop → S.may_stop }
    requires reload { answer ≡ Granted Reload → S.may_reload }
    ensures { Responds S.shows S.stops S.reloads answer source.old response.new source.new }
{
    match answer {
        Answer::Granted(resource) => grant(alloc, source, resource, response),
        Answer::Misdirected => {
            let why = b"not addressed to this console\n";
            say(response, StatusCode::MISDIRECTED_REQUEST, Kind::Text, why);
        }
        Answer::NotFound => say(response, StatusCode::NOT_FOUND, Kind::Text, b"not found\n"),
        Answer::WrongMethod(Resource::Stop | Resource::Reload) => say_allowed(response, "POST"),
        Answer::WrongMethod(_) => say_allowed(response, "GET, HEAD"),
        Answer::Forbidden(resource) => {
            say(
                response,
                StatusCode::FORBIDDEN,
                Kind::Text,
                lacks_text(resource),
            );
        }
        Answer::HasBody => {
            let why = b"a reload has no body\n";
            say(response, StatusCode::BAD_REQUEST, Kind::Text, why);
        }
    }
}

/// Why a resource is refused that lacks its header.
fn lacks_text(resource: Resource) -> &'static [u8]
    ensures { result.now ≡ text_of_lack resource }
{
    match resource {
        Resource::Reload => b"a reload needs the header X-Gonukire: reload\n",
        _ => b"a stop needs the header X-Gonukire: stop\n",
    }
}

/// Responds with what a granted resource shows, or stops the exchange, or asks for a reload.
fn grant<S: StatusSource>(
    alloc: Global,
    source: &mut S,
    resource: Resource,
    response: &mut Response,
)
    requires blank { IsBlank response.old }
    requires stop { resource ≡ Stop → S.may_stop }
    requires reload { resource ≡ Reload → S.may_reload }
    ensures { Grants S.shows S.stops S.reloads resource source.old response.new source.new }
{
    match resource {
        Resource::Page => say(response, StatusCode::OK, Kind::Html, page()),
        Resource::Health => say(response, StatusCode::OK, Kind::Text, b"ok\n"),
        Resource::Status(format) => show(alloc, source, format, response),
        Resource::Stop => take_stop(source, response),
        Resource::Reload => tell_reload(source.reload(), response),
    }
}

/// Responds with what the source shows of this moment.
fn show<S: StatusSource>(alloc: Global, source: &mut S, format: Format, response: &mut Response)
    requires { IsBlank response.old }
    ensures { Shows S.shows format source.old response.new source.new }
{
    match source.status(alloc) {
        Ok(status) => tell(alloc, &status, format, response),
        Err(_) => be_unavailable(response),
    }
}

/// Responds with the text of a status.
fn tell(alloc: Global, status: &ExchangeStatus, format: Format, response: &mut Response)
    requires { IsBlank response.old }
    ensures { Tells format status.now response.new }
{
    let mut text = String::new(alloc);
    match push_text(alloc, &mut text, status, format) {
        Ok(()) => say(response, StatusCode::OK, kind_of(format), text.as_bytes()),
        Err(_) => be_unavailable(response),
    }
}

/// Writes the status in a format, as all of the text.
fn push_text(
    alloc: Global,
    text: &mut String,
    status: &ExchangeStatus,
    format: Format,
) -> Result<(), AllocError>
    requires { string_bytes text.old ≡ [] }
    ensures { OnOk result (IsTextOf format status.now (string_bytes text.new)) }
{
    match format {
        Format::Json => push_json(alloc, text, status),
        Format::Text => push_tables(alloc, text, status),
        Format::Metrics => push_metrics(text, status),
    }
}

fn kind_of(format: Format) -> Kind
    ensures { result ≡ kind_in format }
{
    match format {
        Format::Json => Kind::Json,
        Format::Text => Kind::Text,
        Format::Metrics => Kind::Metrics,
    }
}

/// Stops the exchange, once the response stands.
fn take_stop<S: StatusSource>(source: &mut S, response: &mut Response)
    requires blank { IsBlank response.old }
    requires stop { S.may_stop }
    ensures { Stops S.stops source.old response.new source.new }
{
    match fill(response, StatusCode::ACCEPTED, Kind::Text, b"stopping\n") {
        Ok(()) => source.stop(),
        Err(_) => be_unavailable(response),
    }
}
