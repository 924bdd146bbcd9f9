//! What holds of the definitions.

ghost use Rattle.tdf_bind_ports.specs.Law.{FindsFirstLink};

/// The first of some faults is one of them, and it is the first as all faults that go by line are ordered.
pub fn law_link_faults()
    ensures { FindsFirstLink }
{}
