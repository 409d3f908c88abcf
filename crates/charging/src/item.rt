//! Items: what a row of `operator` or a line of `answer` says.
use chf_messages::Method;
use units::{List, Text};

/// A row or line of an input.
#[derive(Debug, Drop)]
pub enum Item {
    /// An empty line, which is passed over but counted.
    Blank,
    /// The fields of a row.
    Row {
        fields: List<Text>,
    },
    /// A message to the charging function.
    Message {
        method: Method,
        path: Text,
        body: List<u8>,
    },
    /// What is no row and no message.
    Bad,
}
