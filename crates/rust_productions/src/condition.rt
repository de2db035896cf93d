//! Condition mode.

/// Condition mode, in which the condition of an `if` or a `while`, the scrutinee of a `match` and the
/// iterator expression of a `for` are read: outside of brackets and blocks these have no struct
/// expression.
#[derive(Clone, Copy, Debug, PartialEq, Eq)]
pub enum Condition {
    /// A `{` where the fields of a struct expression could begin ends the condition: that of
    /// `if a {}` is `a`.
    On,
    /// Struct expressions are allowed.
    Off,
}
