//! What a step of a trace can lack.

/// The parts of the table by which a trace is checked. In a step they are looked at in this order, K8 first and
/// then K1 to K6; K7 is looked at behind the last step.
#[derive(Clone, Copy, Debug, PartialEq, Eq)]
pub enum Why {
    /// No rule of the step's kind has the name.
    K1,
    /// The names are not the rule's variables in their order, or an `exists` variable is bound to a constant.
    K2,
    /// The image of an atom of the body isn't there.
    K3,
    /// An unknown that a tgd gives isn't new.
    K4,
    /// The sides of an equality are equal, or two constants.
    K5,
    /// The sides of a clash are not two different constants.
    K6,
    /// There is no clash.
    K7,
    /// An earlier step is a clash.
    K8,
}
