//! What kinds of names there are, where names are used, and which kinds each place allows.

ghost use Rattle.std.specs.Prelude.{◌≡◌, Some};
ghost use Rattle.tdf_expr_symbols.specs.Kinds.{is_allowed};
ghost use Rattle.tdf_expr_symbols.specs.declared.kinds.Place.TheVariants as place;

use tdf_lang_tree::PortKind;

/// The kind of a name.
#[derive(Clone, Copy, Debug, PartialEq, Eq)]
pub enum Kind {
    Const,
    Var,
    Array,
    Port(PortKind),
    RateVar,
    Event,
    Signal,
    DeSignal,
    Instance,
    Loop,
    Type,
    Tdf,
    De,
    Composite,
}

/// A body of a block.
#[derive(Clone, Copy, Debug, PartialEq, Eq)]
pub enum Part {
    Initialize,
    Processing,
    Change,
    Reinitialize,
    Process,
}

/// Where a name is used.
#[derive(Clone, Copy, Debug, PartialEq, Eq)]
pub enum Place {
    /// A format, or a cast.
    Format,
    /// The block of an instance.
    Block,
    /// A name in an expression of a body.
    Value(Part),
    /// A name with an index in an expression of a body.
    Element(Part),
    /// A name that a body assigns.
    Target(Part),
    /// A name with an index that a body assigns.
    TargetElement(Part),
    /// A name in an index.
    Index,
    /// The limit of a `for`.
    Limit,
    /// The port of an attribute or of an initial sample.
    Port,
    /// The rate variable that gives a rate, or that a statement sets.
    Rate,
    /// The event of `notify`.
    Notified,
    /// What a process is sensitive to.
    Sensed,
    /// The instance of a `bind`.
    Instance,
    /// What a port is bound to.
    Bound,
}

#[tactic(auto, unfolding(crate::specs::Kinds::is_allowed))]
fn is_value(part: Part, kind: Kind) -> bool
    ensures { result ≡ is_allowed (place.Value part) (Some kind) }
{
    match (kind, part) {
        (Kind::Const, _) => true,
        (Kind::Var, _) => true,
        (Kind::RateVar, _) => true,
        (Kind::Loop, _) => true,
        (Kind::Port(PortKind::In), Part::Processing) => true,
        (Kind::Port(PortKind::DeIn), Part::Processing) => true,
        (Kind::Port(PortKind::DeIn), Part::Process) => true,
        _ => false,
    }
}

#[tactic(auto, unfolding(crate::specs::Kinds::is_allowed))]
fn is_element(part: Part, kind: Kind) -> bool
    ensures { result ≡ is_allowed (place.Element part) (Some kind) }
{
    match (kind, part) {
        (Kind::Array, _) => true,
        (Kind::Port(PortKind::In), Part::Processing) => true,
        (Kind::Port(PortKind::DeIn), Part::Processing) => true,
        _ => false,
    }
}

#[tactic(auto, unfolding(crate::specs::Kinds::is_allowed))]
fn is_target(part: Part, kind: Kind) -> bool
    ensures { result ≡ is_allowed (place.Target part) (Some kind) }
{
    match (kind, part) {
        (Kind::Var, _) => true,
        (Kind::Port(PortKind::Out), Part::Processing) => true,
        (Kind::Port(PortKind::DeOut), Part::Processing) => true,
        (Kind::Port(PortKind::DeOut), Part::Process) => true,
        _ => false,
    }
}

#[tactic(auto, unfolding(crate::specs::Kinds::is_allowed))]
fn is_target_element(part: Part, kind: Kind) -> bool
    ensures { result ≡ is_allowed (place.TargetElement part) (Some kind) }
{
    match (kind, part) {
        (Kind::Array, _) => true,
        (Kind::Port(PortKind::Out), Part::Processing) => true,
        (Kind::Port(PortKind::DeOut), Part::Processing) => true,
        _ => false,
    }
}

/// Whether a place allows a name of this kind.
#[tactic(auto, unfolding(crate::specs::Kinds::is_allowed))]
fn allows(place: Place, kind: Kind) -> bool
    ensures { result ≡ is_allowed place (Some kind) }
{
    match place {
        Place::Format => matches!(kind, Kind::Type),
        Place::Block => matches!(kind, Kind::Tdf | Kind::De | Kind::Composite),
        Place::Value(part) => is_value(part, kind),
        Place::Element(part) => is_element(part, kind),
        Place::Target(part) => is_target(part, kind),
        Place::TargetElement(part) => is_target_element(part, kind),
        Place::Index => matches!(kind, Kind::Loop),
        Place::Limit => matches!(kind, Kind::RateVar),
        Place::Port => matches!(kind, Kind::Port(_)),
        Place::Rate => matches!(kind, Kind::RateVar),
        Place::Notified => matches!(kind, Kind::Event),
        Place::Sensed => matches!(kind, Kind::Event | Kind::Port(PortKind::DeIn)),
        Place::Instance => matches!(kind, Kind::Instance),
        Place::Bound => matches!(kind, Kind::Signal | Kind::DeSignal | Kind::Port(_)),
    }
}

/// Whether a place allows a name of this kind, or one that stands for nothing.
#[tactic(auto, unfolding(crate::specs::Kinds::is_allowed))]
pub fn is_allowed(place: Place, kind: Option<Kind>) -> bool
    ensures { result ≡ is_allowed place kind }
{
    match kind {
        None => false,
        Some(kind) => allows(place, kind),
    }
}
