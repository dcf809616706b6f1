//! Which request gets which answer.

ghost use Rattle.std.specs.Prelude.{◌≡◌, ◌↔◌, IsTrue};
ghost use Rattle.http.specs.Request.{body_of, head_of};
ghost use Rattle.http.specs.declared.request.Parts.{Parts};
ghost use Rattle.xp_console.specs.Requests.{HasHeader, IsAddressed, IsAnswer, IsResourceAt, MayAsk, SaysWord};

use crate::hosts::names_console;
use bytes::Bytes;
use http::Request;
use std::net::IpAddr;

/// The header field that a stop and a reload have to have, in lower case.
const HEADER: &str = "x-gonukire";

/// How the status is written.
#[derive(Clone, Copy)]
pub enum Format {
    /// `/status.json`: as JSON.
    Json,
    /// `/status.txt`: as text for a terminal.
    Text,
    /// `/metrics`: the counts alone, in Prometheus' text format.
    Metrics,
}

/// What the console has to offer.
#[derive(Clone, Copy)]
pub enum Resource {
    /// `/`: the page.
    Page,
    /// The status, in a format.
    Status(Format),
    /// `/healthz`: that the console answers.
    Health,
    /// `/stop`: the clean stop of the exchange.
    Stop,
    /// `/reload`: the subscription file is read again.
    Reload,
}

/// What a request is answered.
#[derive(Clone, Copy)]
pub enum Answer {
    /// The resource is shown; the stop or the reload is taken.
    Granted(Resource),
    /// 421: the request was not addressed to the console.
    Misdirected,
    /// 404: there is no such resource.
    NotFound,
    /// 405: the resource has other methods.
    WrongMethod(Resource),
    /// 403: the stop or the reload lacks its header.
    Forbidden(Resource),
    /// 400: the reload has a body.
    HasBody,
}

/// What a request is answered by a console with this address.
pub fn answer_to(own: IpAddr, request: &Request<Bytes>) -> Answer
    ensures { IsAnswer own (head_of request.now) (body_of request.now) result }
{
    if !is_addressed(own, request) {
        return Answer::Misdirected;
    }
    let Some(resource) = resource_at(request.uri().path()) else {
        return Answer::NotFound;
    };
    if !may_ask(resource, request.method().as_str()) {
        return Answer::WrongMethod(resource);
    }
    if !has_header(resource, request) {
        return Answer::Forbidden(resource);
    }
    match resource {
        Resource::Reload if !request.body().is_empty() => Answer::HasBody,
        _ => Answer::Granted(resource),
    }
}

/// Whether the request is addressed to the console.
fn is_addressed(own: IpAddr, request: &Request<Bytes>) -> bool
    ensures { IsTrue result ↔ IsAddressed own (head_of request.now) }
{
    if request.uri().authority().is_some() {
        return false;
    }
    match request.headers().get("host") {
        Some(host) => names_console(own, host.as_bytes()),
        None => false,
    }
}

/// The resource at a path, if there is one.
fn resource_at(path: &str) -> Option<Resource>
    ensures { IsResourceAt path.now result }
{
    match path {
        "/" => Some(Resource::Page),
        "/status.json" => Some(Resource::Status(Format::Json)),
        "/status.txt" => Some(Resource::Status(Format::Text)),
        "/metrics" => Some(Resource::Status(Format::Metrics)),
        "/healthz" => Some(Resource::Health),
        "/stop" => Some(Resource::Stop),
        "/reload" => Some(Resource::Reload),
        _ => None,
    }
}

/// Whether a resource has this method.
fn may_ask(resource: Resource, method: &str) -> bool
    ensures { IsTrue result ↔ MayAsk resource method.now }
{
    match resource {
        Resource::Stop | Resource::Reload => method == "POST",
        _ => method == "GET" || method == "HEAD",
    }
}

/// Whether the request has the header that the resource asks for. A page of another site can't send it unasked.
fn has_header(resource: Resource, request: &Request<Bytes>) -> bool
    ensures { IsTrue result ↔ HasHeader resource (head_of request.now) }
{
    match resource {
        Resource::Stop => says(request, "stop"),
        Resource::Reload => says(request, "reload"),
        _ => true,
    }
}

/// Whether the header field says this word.
fn says(request: &Request<Bytes>, word: &str) -> bool
    ensures { IsTrue result ↔ SaysWord word.now (head_of request.now) }
{
    match request.headers().get(HEADER) {
        Some(value) => value.as_bytes() == word.as_bytes(),
        None => false,
    }
}
