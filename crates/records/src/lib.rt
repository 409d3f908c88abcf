//! Charging records of data sessions: which containers stand in which record, and a record as octets.
//!
//! What it promises: a `Book` holds the records of all sessions, closed and not closed. Each call is one transition of
//! `specs/Book`: `begin` opens a session's first record, `add` brings containers and closes the record where a limit of
//! `RecordLimits` is reached (`specs/Closing`), `close` ends a session, `close_all` closes what has a container. Over every
//! list of calls each container that came stands in exactly one record (`containers_stand_once`, `specs/Once`), in order
//! (`containers_in_order`, `specs/InOrder`).
//! `read_record` answers the record at the front, or the octet of the first fault (`specs/Grammar`, `specs/Reading`);
//! `write_record` writes the one spelling of its element (`specs/Written`), which reads back (`specs/Fitting`), whatever
//! follows it. `by_group` puts the containers of a request in the order that a book asks for.
//!
//! How it is built: a record that is not closed (`unclosed`) keeps its containers by rating group (`group`), so that
//! closing takes no memory, and its sums (`sums`), so that no call walks them; `make_room` takes all memory before.
//! `close_all` looks only at the sessions whose record got a container since (`touched`). What a book keeps beside its
//! records is in `specs/Seen`, what a record that is not closed keeps in `specs/Groups`. Reading is
//! `ber`'s reader under the grammar of `place`, and then a function of the tree (`reading`); it knows no positions. A record
//! whose fields ascend, all known and of definite lengths, as this product writes them, is read in one pass without a
//! tree (`ordered`). Writing makes no tree: fields go from the last to the first into `ber`'s `BackwardWriter`
//! (`writing`).
//!
//! Where a rule goes: a limit or a cause into `specs/Closing` and `unclosed`; what comes to a book into `Filing`,
//! `specs/Book` and a call of `Book`; a field into `specs/Written` and `writing`, `specs/Grammar` and `place`,
//! `specs/Reading` and `reading`, `specs/Ordered` and `ordered`.
#![tactic(auto)]

mod book;
mod by_number;
mod contents;
mod fields;
mod filing;
mod group;
mod grouping;
mod laws;
mod limits;
mod ordered;
mod place;
mod reading;
mod record;
mod session;
mod sums;
mod touched;
mod unclosed;
mod writing;

pub use ber::BerRefusal as RecordRefusal;
pub use book::Book;
pub use filing::Filing;
pub use grouping::by_group;
pub use laws::{containers_in_order, containers_stand_once, no_record_begins_another};
pub use limits::RecordLimits;
pub use reading::read_record;
pub use record::{Kept, Record};
pub use unclosed::Unclosed;
pub use writing::write_record;
