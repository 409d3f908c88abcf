//! A response: its status, its Location and its body.
ghost use Rattle.std.specs.Prelude.{◌≡◌, IfOk, IsTrue};
ghost use Rattle.json_objects.specs.Tokens.{do_ascend};
ghost use Rattle.spend_json.specs.StatusWritten.{infos_fields};
ghost use Rattle.chf_messages.specs.Responses.{given_response, made_response, removed_response, response_of, subscription_path};

use charging_json::{reply_location, reply_status, write_reply};
use spend_json::write_status;
use std::alloc::Global;
use units::{List, OutOfMemory, Reply, SpendStatus, Text};

/// A response to a message (RFC 9110, 15).
#[derive(Debug, Drop)]
pub struct Response {
    /// Its status code.
    pub status: u16,
    /// The path of what was made, where something was.
    pub location: Option<Text>,
    /// Its body, empty where it has none.
    pub body: List<u8>,
}

impl Response {
    /// The response that a reply is.
    pub fn of(alloc: Global, reply: &Reply) -> Result<Response, OutOfMemory>
        ensures { IfOk result (λ r. r ≡ response_of reply.now) }
    {
        Ok(Response {
            status: reply_status(reply),
            location: reply_location(alloc, reply)?,
            body: write_reply(alloc, reply)?,
        })
    }
}

// The path of a subscription to spending limits.
fn subscription_path(alloc: Global, id: u32) -> Result<Text, OutOfMemory>
    ensures { IfOk result (λ t. t ≡ subscription_path id) }
{
    let path = format!(in alloc; "/nchf-spendinglimitcontrol/v1/subscriptions/{id}")?;
    Ok(Text::from_string(path))
}

/// The response to a subscription that was made, whose counters ascend.
pub fn made(alloc: Global, id: u32, status: &SpendStatus) -> Result<Response, OutOfMemory>
    requires { IsTrue (do_ascend (infos_fields status.now.infos)) }
    ensures { IfOk result (λ r. r ≡ made_response id status.now) }
{
    Ok(Response {
        status: 201,
        location: Some(subscription_path(alloc, id)?),
        body: write_status(alloc, status)?,
    })
}

/// The response to a subscription that has another context, whose counters ascend.
pub fn given(alloc: Global, status: &SpendStatus) -> Result<Response, OutOfMemory>
    requires { IsTrue (do_ascend (infos_fields status.now.infos)) }
    ensures { IfOk result (λ r. r ≡ given_response status.now) }
{
    Ok(Response {
        status: 200,
        location: None,
        body: write_status(alloc, status)?,
    })
}

/// The response to a subscription that ended.
pub fn removed(alloc: Global) -> Response
    ensures { result ≡ removed_response }
{
    Response {
        status: 204,
        location: None,
        body: List::new(alloc),
    }
}
