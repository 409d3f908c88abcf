//! Tags.
/// What the identifier octets of an element say (X.690 8.1.2).
#[derive(Clone, Copy, Debug, PartialEq, Eq)]
pub struct Tag {
    /// 0 universal, 1 application, 2 context-specific, 3 private (X.690 8.1.2.2, Table 1).
    pub class: u8,
    /// Whether the element consists of elements (X.690 8.1.2.5).
    pub constructed: bool,
    /// The number within the class.
    pub number: u32,
}
