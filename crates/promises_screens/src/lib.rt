// Laws for the screens, no code: see specs/Screens.antt.
#![tactic(auto)]
