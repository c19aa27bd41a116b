//! Addresses of the version 4 of IP.

/// A host, whose first number is the highest byte, and a port.
#[derive(Clone, Copy, Debug, PartialEq, Eq)]
pub struct Address {
    pub host: u32,
    pub port: u16,
}
