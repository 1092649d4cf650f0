// Laws that hold the definitions of the calls from another side. The functions do nothing: their contracts state what is proved in specs/.
#![tactic(auto)]

ghost use Rattle.call_laws.specs.FirstVersion.{FirstVersion};
ghost use Rattle.call_laws.specs.Keeping.{RefusalsKeep};
ghost use Rattle.call_laws.specs.Places.{HeldAgain, HeldOnce};
ghost use Rattle.call_laws.specs.ReadBack.{AnswersReadBack};
ghost use Rattle.call_laws.specs.SettingsKept.{SettingsKept};

// A message that was accepted is refused as held when it comes again.
pub fn held_again()
    ensures { HeldAgain }
{}

// A message that was accepted takes its own place, and no other.
pub fn held_once()
    ensures { HeldOnce }
{}

// A refused call leaves all lent words and bytes as they were.
pub fn refusals_keep()
    ensures { RefusalsKeep }
{}

// No delivery, turn or recording changes a word of the settings.
pub fn settings_kept()
    ensures { SettingsKept }
{}

// Sessions of version 1 are what they would be without version 2.
pub fn first_version()
    ensures { FirstVersion }
{}

// What C reads of the number of an answer is that answer.
pub fn answers_read_back()
    ensures { AnswersReadBack }
{}
