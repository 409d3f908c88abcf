//! Why an account refuses.
/// Why an account refuses (this product's own).
#[derive(Clone, Copy, Debug, PartialEq, Eq)]
pub enum AccountRefusal {
    /// E15: no account has this number.
    UnknownAccount,
    /// E16: the amount is above what is free.
    Exceeds {
        /// What is free.
        available: u128,
    },
}
