//! Payloads of journals: whether the bytes are one, and of which command, setup or event.
use chf_core::Command;
use chf_payloads::read_payload as read_command;
use smf_model::SmfEvent;
use smf_payloads::{read_payload as read_event, read_setup_payload};
use std::alloc::Global;
use units::OutOfMemory;

// The bytes of a text in which a semicolon stands for a line feed.
fn bytes_of(alloc: Global, text: &str) -> Result<Vec<u8>, OutOfMemory> {
    let mut bytes = Vec::new(alloc);
    for byte in text.as_bytes() {
        bytes.push(if *byte == b';' { b'\n' } else { *byte })?;
    }
    Ok(bytes)
}

fn name_of_command(command: &Command) -> &'static str {
    match command {
        Command::Setup { .. } => "Setup",
        Command::Charge { .. } => "Charge",
        Command::Subscriber { .. } => "Subscriber",
        Command::TopUp { .. } => "TopUp",
        Command::Expire { .. } => "Expire",
        Command::CloseRecords { .. } => "CloseRecords",
        Command::Subscribe { .. } => "Subscribe",
        Command::Modify { .. } => "Modify",
        Command::Unsubscribe { .. } => "Unsubscribe",
        Command::NoticeSent { .. } => "NoticeSent",
    }
}

fn name_of_event(event: &SmfEvent) -> &'static str {
    match event {
        SmfEvent::Attach { .. } => "Attach",
        SmfEvent::Start { .. } => "Start",
        SmfEvent::Count { .. } => "Count",
        SmfEvent::Change { .. } => "Change",
        SmfEvent::Tick { .. } => "Tick",
        SmfEvent::Detach { .. } => "Detach",
        SmfEvent::Answered { .. } => "Answered",
        SmfEvent::Attempt { .. } => "Attempt",
        SmfEvent::NotSent { .. } => "NotSent",
        SmfEvent::NoReply { .. } => "NoReply",
        SmfEvent::Restart => "Restart",
    }
}

/// The kind of the command whose payload a text is, or a hyphen.
pub fn command(alloc: Global, text: &str) -> Result<String, OutOfMemory> {
    let bytes = bytes_of(alloc, text)?;
    let name = match read_command(alloc, bytes.as_slice())? {
        Some(command) => name_of_command(&command),
        None => "-",
    };
    Ok(String::from_str(alloc, name)?)
}

/// The kind of the event whose payload a text is, `Setup` where it is that of a setup, or a hyphen.
pub fn event(alloc: Global, text: &str) -> Result<String, OutOfMemory> {
    let bytes = bytes_of(alloc, text)?;
    if read_setup_payload(alloc, bytes.as_slice())?.is_some() {
        return Ok(String::from_str(alloc, "Setup")?);
    }
    let name = match read_event(alloc, bytes.as_slice())? {
        Some(event) => name_of_event(&event),
        None => "-",
    };
    Ok(String::from_str(alloc, name)?)
}
