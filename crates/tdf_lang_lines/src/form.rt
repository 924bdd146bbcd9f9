//! What one line of a text can be.

use tdf_lang_tree::{Expr, FormatRef, Index, Limit, Lit, Name, PortKind, Shape};

/// A line form, with what its line says. Times are counts of the text's resolution.
#[derive(Drop)]
pub enum LineForm {
    /// `type NAME SHAPE`
    Type(Name, Shape),
    /// `tdf NAME`
    Tdf(Name),
    /// `de NAME`
    De(Name),
    /// `composite NAME`
    Composite(Name),
    /// `top`
    Top,
    /// `end`
    End,
    /// `in`, `out`, `de_in` or `de_out`, then `NAME FORMAT`
    Port(PortKind, Name, FormatRef),
    /// `const NAME FORMAT LIT`
    Const(Name, FormatRef, Lit),
    /// `var NAME FORMAT [LIT]`; an absent literal is 0
    Var(Name, FormatRef, Lit),
    /// `array NAME FORMAT LENGTH LIT ..`
    Array(Name, FormatRef, u64, Vec<Lit>),
    /// `rate NAME LEAST GREATEST START`
    RateVar(Name, u64, u64, u64),
    /// `set_attributes`
    SetAttributes,
    /// `initialize`
    Initialize,
    /// `processing`
    Processing,
    /// `change_attributes`
    ChangeAttributes,
    /// `reinitialize`
    Reinitialize,
    /// `timestep [PORT] TIME`
    Step(Option<Name>, u64),
    /// `rate PORT RATE`
    Rate(Name, Limit),
    /// `delay PORT COUNT`
    Delay(Name, u64),
    /// `does_attribute_changes`
    Does,
    /// `accept_attribute_changes`
    Accept,
    /// `reject_attribute_changes`
    Reject,
    /// `initial PORT SAMPLE LIT`
    Initial(Name, u64, Lit),
    /// `event NAME`
    Event(Name),
    /// `process`
    Process,
    /// `sensitive NAME`
    Sensitive(Name),
    /// `dont_initialize`
    DontInitialize,
    /// `notify NAME [after TIME]`; an absent time is 0
    Notify(Name, u64),
    /// `signal NAME FORMAT`
    Signal(Name, FormatRef),
    /// `de_signal NAME FORMAT [LIT]`; an absent literal is 0
    DeSignal(Name, FormatRef, Lit),
    /// `instance NAME BLOCK`
    Instance(Name, Name),
    /// `bind INSTANCE.PORT TARGET`
    Bind(Name, Name, Name),
    /// `trace PATH LABEL`
    Trace(Vec<Name>, Name),
    /// `NAME = EXPR` or `NAME[INDEX] = EXPR`
    Assign(Name, Option<Index>, Expr),
    /// `if EXPR`
    If(Expr),
    /// `else`
    Else,
    /// `for NAME FROM LIMIT`
    For(Name, u64, Limit),
    /// `rate NAME = EXPR`
    SetRate(Name, Expr),
}
