//! A console's reply, read as a response of HTTP.

use crate::asking::AskFault;
use bytes::BytesMut;
use http1::{BodySize, Client, Event, Header, Limits};
use httparse::spans::{EMPTY_HEADER_SPAN, HeaderSpan};
use std::alloc::Global;

/// How many header fields a reply has at most.
const MOST_FIELDS: usize = 64;

/// What a console has replied.
#[derive(Drop)]
pub(crate) struct Reply {
    pub status: u16,
    pub body: Vec<u8>,
}

/// The response that these octets are, whole.
///
/// # Errors
///
/// `Unreadable` where they are none, `Memory`.
pub(crate) fn reply_in(alloc: Global, text: &[u8]) -> Result<Reply, AskFault> {
    let mut client = asking_client(alloc)?;
    let mut spans = [EMPTY_HEADER_SPAN; MOST_FIELDS];
    let mut reply = Reply {
        status: 0,
        body: Vec::new(alloc),
    };
    let mut rest = text;
    for _event in 0..u64::MAX {
        let Ok(read) = client.read(rest, &mut spans) else {
            return Err(AskFault::Unreadable);
        };
        match read.event {
            Event::Head(head) => reply.status = head.code,
            Event::Data(piece) => reply.body.extend_from_slice(piece.of(rest))?,
            Event::End(_) => return Ok(reply),
            _ => return Err(AskFault::Unreadable),
        }
        rest = &rest[read.consumed..];
    }
    Err(AskFault::Unreadable)
}

/// A client of HTTP that has sent its request.
fn asking_client(alloc: Global) -> Result<Client, AskFault> {
    let mut client = Client::new(Limits::default());
    let mut sent = BytesMut::new(alloc);
    let host = [Header {
        name: b"host",
        value: b"console",
    }];
    if client
        .write_request(&mut sent, b"GET", b"/", &host, BodySize::Empty)
        .is_err()
        || client.write_end(&mut sent, &[]).is_err()
    {
        return Err(AskFault::Memory);
    }
    Ok(client)
}
