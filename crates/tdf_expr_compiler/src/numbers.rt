//! The numbers of a name.

/// How many cells, samples, ports, rate variables and events of a block come before a name.
#[derive(Clone, Copy)]
pub struct Numbers {
    pub(crate) cell: u32,
    pub(crate) sample: u32,
    pub(crate) port: u32,
    pub(crate) rate: u32,
    pub(crate) event: u32,
}
