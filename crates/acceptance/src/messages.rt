//! Charging messages: what is read of a body, and how it is written again.
use crate::values::small;
use charging_json::{
    cause_of, read_reply, read_request, session_location, write_reply, write_request,
};
use std::alloc::Global;
use units::{JsonRefusal, Operation, OutOfMemory, Reply, name_of_cause};

/// A word, and the field of a refusal that names one.
pub fn refused(alloc: Global, word: &str, refusal: &JsonRefusal) -> Result<String, OutOfMemory> {
    let mut text = String::from_str(alloc, word)?;
    if let JsonRefusal::Missing { field } | JsonRefusal::Wrong { field } = refusal {
        text.push_str(" ")?;
        text.push_str(field.as_str())?;
    }
    Ok(text)
}

/// The request that a body is, as it is written, or the cause of the refusal with its field.
pub fn request(alloc: Global, operation: &str, body: &str) -> Result<String, OutOfMemory> {
    let operation = match operation {
        "C" => Operation::Create,
        "U" => Operation::Update(5),
        _ => Operation::Release(5),
    };
    let request = match read_request(alloc, operation, body.as_bytes()) {
        Ok(request) => request,
        Err(refusal) => return refused(
            alloc,
            name_of_cause(cause_of(operation, &refusal)),
            &refusal,
        ),
    };
    let written = write_request(alloc, &request)?;
    let mut text = String::from_str(
        alloc,
        std::str::from_utf8(written.as_slice()).unwrap_or("?"),
    )?;
    let is_same = match read_request(alloc, operation, written.as_slice()) {
        Ok(again) => again == request,
        Err(_) => false,
    };
    if !is_same {
        text.push_str(" is read as another")?;
    }
    Ok(text)
}

/// The word of a refusal.
pub fn word_of(refusal: &JsonRefusal) -> &'static str {
    match refusal {
        JsonRefusal::NotJson => "NotJson",
        JsonRefusal::Missing { .. } => "Missing",
        JsonRefusal::Wrong { .. } => "Wrong",
        JsonRefusal::OutOfMemory => "OutOfMemory",
    }
}

// The Location of a reply that made a session, and a blank; nothing of another.
fn location_of(alloc: Global, reply: &Reply) -> Result<String, OutOfMemory> {
    let mut text = String::new(alloc);
    if let Reply::Created { reference, .. } = reply {
        text.push_str(session_location(alloc, *reference)?.as_str())?;
        text.push_str(" ")?;
    }
    Ok(text)
}

/// The reply that a response is, with its Location as it is written, or the refusal with its field.
pub fn reply(
    alloc: Global,
    status: &str,
    location: &str,
    body: &str,
) -> Result<String, OutOfMemory> {
    let status = u16::try_from(small(status)).unwrap_or(0);
    let location = if location == "-" {
        None
    } else {
        Some(location)
    };
    let reply = match read_reply(alloc, status, location, body.as_bytes()) {
        Ok(reply) => reply,
        Err(refusal) => return refused(alloc, word_of(&refusal), &refusal),
    };
    let mut text = location_of(alloc, &reply)?;
    let written = write_reply(alloc, &reply)?;
    text.push_str(std::str::from_utf8(written.as_slice()).unwrap_or("?"))?;
    let is_same = match read_reply(alloc, status, location, written.as_slice()) {
        Ok(again) => again == reply,
        Err(_) => false,
    };
    if !is_same {
        text.push_str(" is read as another")?;
    }
    Ok(text)
}
