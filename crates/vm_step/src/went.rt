// What comes of a step.

/// What comes of a step, as far as the frames tell.
#[derive(Clone, Copy, Debug, PartialEq, Eq)]
pub enum FramesWent {
    /// The run goes on.
    Next,
    /// The run has ended: no frame is left.
    Ended,
    /// The instruction does not find what it takes.
    Stuck,
    /// There would be more frames than the bound allows.
    Left,
}
