//! That replacements can be handed down from instance to instance.
ghost use Rattle.ato_elab.specs.Waiting.{ReplacementsEnd};

/// What waits at an instance and ends at a member is what replaces the member's type.
pub(crate) fn replacements_end()
    ensures { ReplacementsEnd }
{}
