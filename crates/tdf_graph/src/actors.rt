//! Actors, and the edges and ports between them.

/// What takes and gives samples.
#[derive(Clone, Copy, Debug, PartialEq, Eq)]
pub enum Actor {
    /// A module of timed data flow.
    Module,
    /// A port that reads an event signal into a module.
    Sampler,
    /// A port that writes a module's samples to an event signal.
    Sink,
}

/// An edge: samples go from its writer to its reader, in order.
#[derive(Clone, Copy, Debug, PartialEq, Eq)]
pub struct Edge {
    /// The number of the actor that writes.
    pub writer: u32,
    /// The number of the actor that reads.
    pub reader: u32,
    /// Samples written in one firing of the writer.
    pub write_rate: u32,
    /// Samples read in one firing of the reader.
    pub read_rate: u32,
    /// Samples that are there before any firing.
    pub initial: u32,
}

/// A port of a module.
#[derive(Clone, Copy, Debug, PartialEq, Eq)]
pub struct Port {
    /// The number of the port's module.
    pub actor: u32,
    /// Samples in one firing.
    pub rate: u32,
}
