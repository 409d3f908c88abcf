//! Turns of charging messages read and written, beside JSON alone.
use charging_json::{read_request, write_reply};
use serde_json::Value;
use std::alloc::{AllocError, Global};
use units::{Amount, Answer, Code, List, Moment, Operation, OutOfMemory, Reply, UnitInfo};

const HEAD: &str =
    "{\"chargingId\":7,\"invocationSequenceNumber\":1,\"invocationTimeStamp\":\"2026-01-02T04:04:05+01:00\",\"multipleUnitUsage\":[";

const ENTRY: &str = "{\"ratingGroup\":10,\"requestedUnit\":{}}";

const USED_ENTRY: [&str; 3] = [
    "{\"ratingGroup\":10,\"requestedUnit\":{},\"usedUnitContainer\":[",
    "{\"downlinkVolume\":2,\"localSequenceNumber\":1,\"pDUContainerInformation\":{\"timeofFirstUsage\":\"2026-01-02T02:04:05Z\",\"timeofLastUsage\":\"2026-01-02T02:04:05Z\"},\"time\":0,\"totalVolume\":3,\"triggerTimestamp\":\"2026-01-02T02:04:05Z\",\"triggers\":[{\"triggerCategory\":\"IMMEDIATE_REPORT\",\"triggerType\":\"QUOTA_THRESHOLD\"}],\"uplinkVolume\":1}",
    "]}",
];

const TAIL: &str =
    "],\"nfConsumerIdentification\":{\"nFName\":\"smf1\",\"nodeFunctionality\":\"SMF\"},\"pDUSessionChargingInformation\":{\"pduSessionInformation\":{\"dnnId\":\"internet\",\"pduSessionID\":5,\"pduType\":\"IPV4\"}},\"subscriberIdentifier\":\"imsi-001010000000001\"}";

// An entry of a request, with that many used unit containers.
fn push_entry(text: &mut String, containers: u64) -> Result<(), AllocError> {
    if containers == 0 {
        return text.push_str(ENTRY);
    }
    let [begin, container, end] = USED_ENTRY;
    text.push_str(begin)?;
    for place in 0..containers {
        if place > 0 {
            text.push_str(",")?;
        }
        text.push_str(container)?;
    }
    text.push_str(end)
}

// A Create with that many entries of that many containers each.
fn body(alloc: Global, entries: u64, containers: u64) -> Result<String, AllocError> {
    let mut text = String::from_str(alloc, HEAD)?;
    for place in 0..entries {
        if place > 0 {
            text.push_str(",")?;
        }
        push_entry(&mut text, containers)?;
    }
    text.push_str(TAIL)?;
    Ok(text)
}

/// The octets of a Create with that many entries of that many containers each, 0 where it is refused.
pub fn request_size(alloc: Global, entries: u64, containers: u64) -> Result<u64, OutOfMemory> {
    let body = body(alloc, entries, containers)?;
    match read_request(alloc, Operation::Create, body.as_bytes()) {
        Ok(_) => Ok(body.len() as u64),
        Err(_) => Ok(0),
    }
}

/// Reads a Create with that many entries of that many containers each over and over, and counts the entries.
pub fn read_requests(
    alloc: Global,
    entries: u64,
    containers: u64,
    turns: u64,
) -> Result<u64, OutOfMemory> {
    let body = body(alloc, entries, containers)?;
    let mut sum = 0u64;
    for _ in 0..turns {
        if let Ok(request) = read_request(alloc, Operation::Create, body.as_bytes()) {
            sum = sum.wrapping_add(request.usage.len() as u64);
        }
    }
    Ok(sum)
}

/// Reads the same bytes as JSON alone.
pub fn parsed_values(alloc: Global, entries: u64, turns: u64) -> Result<u64, OutOfMemory> {
    let body = body(alloc, entries, 0)?;
    let mut sum = 0u64;
    for _ in 0..turns {
        if let Ok(value) = Value::from_slice(alloc, body.as_bytes()) {
            sum = sum.wrapping_add(u64::from(value.is_object()));
        }
    }
    Ok(sum)
}

fn reply(alloc: Global, entries: u64) -> Result<Reply, AllocError> {
    let mut units = List::new(alloc);
    for _ in 0..entries {
        units.push(UnitInfo {
            group: 10,
            code: Code::Success,
            grant: Some(Amount::Volume(1_000_000)),
            switch: Moment::new(1_767_340_800),
            validity: Some(3600),
            holding: None,
            volume_threshold: Some(100_000),
            time_threshold: None,
            last_units: None,
            triggers: List::new(alloc),
        })?;
    }
    Ok(Reply::Created {
        reference: 1,
        answer: Answer {
            number: 1,
            stamp: Moment::first().plus(1_767_323_045),
            failover: Some(true),
            handling: None,
            triggers: List::new(alloc),
            units,
        },
    })
}

/// Writes a reply with that many entries over and over, and sums the lengths up.
pub fn written_replies(alloc: Global, entries: u64, turns: u64) -> Result<u64, OutOfMemory> {
    let reply = reply(alloc, entries)?;
    let mut sum = 0u64;
    for _ in 0..turns {
        sum = sum.wrapping_add(write_reply(alloc, &reply)?.len() as u64);
    }
    Ok(sum)
}

/// Writes the same bytes from a JSON value alone.
pub fn printed_values(alloc: Global, entries: u64, turns: u64) -> Result<u64, OutOfMemory> {
    let text = write_reply(alloc, &reply(alloc, entries)?)?;
    let mut sum = 0u64;
    if let Ok(value) = Value::from_slice(alloc, text.as_slice()) {
        for _ in 0..turns {
            sum = sum.wrapping_add(value.to_vec(alloc)?.len() as u64);
        }
    }
    Ok(sum)
}
