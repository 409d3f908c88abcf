//! The same keys with a number in place of the consumer.
/// What tells sessions apart, by the number of the consumer.
#[derive(Clone, Copy, PartialEq, Eq, Hash, Debug)]
pub(crate) struct NumberedName {
    pub(crate) consumer: u32,
    pub(crate) charging_id: u32,
}

/// The key of a request, by the number of the consumer.
#[derive(Clone, Copy, PartialEq, Eq, Hash, Debug)]
pub(crate) struct NumberedKey {
    pub(crate) consumer: u32,
    pub(crate) charging_id: u32,
    pub(crate) number: u32,
}
