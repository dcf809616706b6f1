//! The responses of the console.

ghost use Rattle.std.specs.Prelude.{◌≡◌, [], ◌∷◌, ◌++◌, codes, IsTrue, OnOk};
ghost use Rattle.http_header.specs.FieldName.{is_header_name};
ghost use Rattle.http_header.specs.FieldValue.{is_visible_text};
ghost use Rattle.http_server.specs.Response.{IsBlank, IsResponse};
ghost use Rattle.xp_console.specs.Responses.{IsUnavailable, Says, fields_for, type_text};
ghost use Rattle.xp_console.specs.steps.Responses.{Adds, AddsStandard};

use bytes::BufMut;
use http::{HeaderName, HeaderValue, StatusCode};
use http_server::Response;
use std::alloc::AllocError;

/// What a browser may load and do for the page: nothing but what stands in the page itself, and what it asks of the console.
const POLICY: &str =
    "default-src 'none'; style-src 'unsafe-inline'; script-src 'unsafe-inline'; connect-src 'self'; base-uri 'none'; form-action 'none'; frame-ancestors 'none'";

/// What the body of a response is.
#[derive(Clone, Copy)]
pub(crate) enum Kind {
    Html,
    Json,
    Text,
    /// Prometheus' text format.
    Metrics,
}

impl Kind {
    /// As `content-type` says it.
    fn as_str(self) -> &'static str
        ensures text { result.now ≡ type_text self }
        ensures valid { IsTrue (is_visible_text result.now) }
    {
        match self {
            Kind::Html => "text/html; charset=utf-8",
            Kind::Json => "application/json",
            Kind::Text => "text/plain; charset=utf-8",
            Kind::Metrics => "text/plain; version=0.0.4; charset=utf-8",
        }
    }
}

/// Answers with this status and body. Where memory is wanting the answer is 503.
pub(crate) fn say(response: &mut Response, status: StatusCode, kind: Kind, body: &[u8])
    requires { IsBlank response.old }
    ensures { Says status kind [] body.now response.new }
{
    if fill(response, status, kind, body).is_err() {
        be_unavailable(response);
    }
}

/// Answers 405: there are these methods alone.
pub(crate) fn say_allowed(response: &mut Response, methods: &'static str)
    requires valid { IsTrue (is_visible_text methods.now) }
    requires blank { IsBlank response.old }
    ensures { Says 405 Kind.Text ((codes "allow", methods.now) ∷ []) (codes "wrong method\n") response.new }
{
    let status = StatusCode::METHOD_NOT_ALLOWED;
    say_more(response, status, "allow", methods, b"wrong method\n");
}

/// Answers 503: it may be tried again, in 10 seconds.
pub(crate) fn say_busy(response: &mut Response)
    requires { IsBlank response.old }
    ensures { Says 503 Kind.Text ((codes "retry-after", codes "10") ∷ []) (codes "busy\n") response.new }
{
    let status = StatusCode::SERVICE_UNAVAILABLE;
    say_more(response, status, "retry-after", "10", b"busy\n");
}

/// Answers with this status and text, and one more field. Where memory is wanting the answer is 503.
fn say_more(
    response: &mut Response,
    status: StatusCode,
    name: &'static str,
    value: &'static str,
    body: &[u8],
)
    requires name { IsTrue (is_header_name name.now) }
    requires value { IsTrue (is_visible_text value.now) }
    requires blank { IsBlank response.old }
    ensures { Says status Kind.Text ((name.now, value.now) ∷ []) body.now response.new }
{
    if fill(response, status, Kind::Text, body).is_err() || add(response, name, value).is_err() {
        be_unavailable(response);
    }
}

/// Answers 503: memory is wanting.
pub(crate) fn be_unavailable(response: &mut Response)
    ensures { IsUnavailable response.new }
{
    response.clear();
    response.status = StatusCode::SERVICE_UNAVAILABLE;
}

pub(crate) fn fill(
    response: &mut Response,
    status: StatusCode,
    kind: Kind,
    body: &[u8],
) -> Result<(), AllocError>
    requires { IsBlank response.old }
    ensures { OnOk result (IsResponse status (fields_for kind) body.now response.new) }
{
    add(response, "content-type", kind.as_str())?;
    add_standard(response)?;
    response.status = status;
    response.body.put_slice(body)
}

/// Adds the fields that each response has.
fn add_standard(response: &mut Response) -> Result<(), AllocError>
    ensures { OnOk result (AddsStandard response.old response.new) }
{
    add(response, "cache-control", "no-store")?;
    add(response, "x-content-type-options", "nosniff")?;
    add(response, "content-security-policy", POLICY)?;
    add(response, "connection", "close")
}

/// Adds a field.
fn add(response: &mut Response, name: &'static str, value: &'static str) -> Result<(), AllocError>
    requires name { IsTrue (is_header_name name.now) }
    requires value { IsTrue (is_visible_text value.now) }
    ensures { OnOk result (Adds ((name.now, value.now) ∷ []) response.old response.new) }
{
    response.add_header(
        HeaderName::from_static(name),
        HeaderValue::from_static(value),
    )
}
