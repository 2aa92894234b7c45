//! The limits of a run.
ghost use Rattle.commands.specs.Limits.{HasLimits};

/// The limits of a run, as numbers. The call does nothing.
pub fn limits_law()
    ensures { HasLimits }
{}
