//! Laws of commands, each the contract of a function that does nothing.
ghost use Rattle.sd_command.specs.Events.{EffectLaw};

use sd_pagetable::effect_law as effect_of_events;

/// The event of a command and its reply makes of the plain memory what the command makes of it.
pub fn effect_law()
    ensures { EffectLaw }
{
    effect_of_events();
}
