//! What a request files in the book of records. Nothing here takes memory.
ghost use Rattle.std.specs.Prelude.{◌≡◌, ◌<◌, ◌+◌, ◌-◌, ◌^◌, IfSome, None, false, is_some};
ghost use Rattle.units.specs.declared.request.Operation.TheVariants.{Release};
ghost use Rattle.records.specs.Book.{session_of};
ghost use Rattle.chf_core.specs.Filings.{is_abnormal, release_cause, filed_usage, opening_of, created_filings, filings_by, filed};
ghost use Rattle.chf_core.specs.Booked.{Opens, CanFile, reference_by};

use records::Book;
use units::{List, Operation, Request, Text, TriggerType, UnitUsage, name_of_type};

/// The names of the records of a session that a Create opens.
#[derive(Debug, Drop)]
pub(crate) struct Opening {
    pub(crate) subscriber: Text,
    pub(crate) consumer: Text,
    pub(crate) charging_id: u32,
}

// Whether a Release tells that it is abnormal.
fn is_abnormal(triggers: &[Text]) -> bool
    ensures { result ≡ is_abnormal triggers.now }
{
    for trigger in triggers {
        if trigger.as_str() == name_of_type(TriggerType::AbnormalRelease) {
            return true;
        }
    }
    false
}

// The cause for which a Release closes its record.
fn release_cause(request: &Request) -> u8
    ensures { result ≡ release_cause request.now }
{
    if is_abnormal(request.triggers.as_slice()) {
        4
    } else {
        0
    }
}

/// The reference of the session in whose records a request files, where so many stand before it.
pub fn reference_by(request: &Request, sessions: usize) -> u32
    requires { sessions < 2 ^ 32 - 1 }
    ensures { result ≡ reference_by request.now.operation sessions }
{
    match request.operation {
        Operation::Create => sessions as u32 + 1,
        Operation::Update(reference) => reference,
        Operation::Release(reference) => reference,
    }
}

// A session begins, and its first containers come.
fn open(book: &mut Book, reference: u32, request: &Request, names: Opening, used: List<UnitUsage>)
    requires ready { CanFile book.old reference used }
    requires fresh { session_of book.old.records.sessions reference ≡ None }
    requires names { Opens request.now names }
    requires used { used ≡ filed_usage request.now }
    ensures records { book.new.records ≡ filed book.old.limits (opening_of reference request.now) book.old.records }
    ensures limits { book.new.limits ≡ book.old.limits }
{
    book.begin(
        reference,
        names.subscriber,
        names.consumer,
        names.charging_id,
        request.stamp,
    );
    book.add(reference, used, request.stamp, false);
}

// What a Create files.
fn create(
    book: &mut Book,
    reference: u32,
    request: &Request,
    names: Option<Opening>,
    used: List<UnitUsage>,
)
    requires ready { CanFile book.old reference used }
    requires fresh { session_of book.old.records.sessions reference ≡ None }
    requires names { IfSome names (Opens request.now) }
    requires used { used ≡ filed_usage request.now }
    ensures records { book.new.records ≡ filed book.old.limits (created_filings reference request.now (is_some names)) book.old.records }
    ensures limits { book.new.limits ≡ book.old.limits }
{
    if let Some(names) = names {
        open(book, reference, request, names, used);
    }
}

// The last containers come, and the session ends.
fn end(book: &mut Book, reference: u32, request: &Request, used: List<UnitUsage>)
    requires ready { CanFile book.old reference used }
    requires used { used ≡ filed_usage request.now }
    ensures records { book.new.records ≡ filed book.old.limits (filings_by (Release reference) 0 request.now false) book.old.records }
    ensures limits { book.new.limits ≡ book.old.limits }
{
    book.add(reference, used, request.stamp, true);
    book.close(reference, release_cause(request), request.stamp);
}

/// What a request files, for which there is room.
pub fn file(
    book: &mut Book,
    sessions: usize,
    request: &Request,
    names: Option<Opening>,
    used: List<UnitUsage>,
)
    requires few { sessions < 2 ^ 32 - 1 }
    requires ready { CanFile book.old (reference_by request.now.operation sessions) used }
    requires fresh { session_of book.old.records.sessions (sessions + 1) ≡ None }
    requires names { IfSome names (Opens request.now) }
    requires used { used ≡ filed_usage request.now }
    ensures records { book.new.records ≡ filed book.old.limits (filings_by request.now.operation sessions request.now (is_some names)) book.old.records }
    ensures limits { book.new.limits ≡ book.old.limits }
{
    match request.operation {
        Operation::Create => create(book, sessions as u32 + 1, request, names, used),
        Operation::Update(reference) => book.add(reference, used, request.stamp, false),
        Operation::Release(reference) => end(book, reference, request, used),
    }
}
