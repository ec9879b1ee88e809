// Theorems about the settings, and no code: specs/ has their statements, and proofs/ their proofs.
#![tactic(auto)]

ghost use Rattle.settings_laws.specs.Locked.{SettingsFit, LockedAsListed};
ghost use Rattle.settings_laws.specs.Headers.{EndsByEdition, PlaceBelowEnd, FitsWithin, FitsAlways, FitsNever, SmhrAtIndexes, SmhrLoaded};
ghost use Rattle.settings_laws.specs.Routing.{WindowRoutes, RoutedByBits, EnabledByBits, Ccr3ByBits};
ghost use Rattle.settings_laws.specs.Stored.{StoredAt, ZeroElsewhere, ReadBack, SmhrStored, MasksListed};

use settings::Settings;

// These hold the gate to the bytes' width, to what the lock's table covers, and to where the header lies.
fn widths(s: Settings)
    ensures { SettingsFit s }
{}

fn laws()
    ensures locked { LockedAsListed }
    ensures ends { EndsByEdition }
    ensures place { PlaceBelowEnd }
    ensures within { FitsWithin }
    ensures always { FitsAlways }
    ensures never { FitsNever }
    ensures indexes { SmhrAtIndexes }
    ensures loaded { SmhrLoaded }
{}

// These, to the rules as raw bits and numbers.
fn bits()
    ensures window { WindowRoutes }
    ensures routed { RoutedByBits }
    ensures enabled { EnabledByBits }
    ensures ccr3 { Ccr3ByBits }
{}

fn indexes()
    ensures stored { StoredAt }
    ensures elsewhere { ZeroElsewhere }
    ensures back { ReadBack }
    ensures smhr { SmhrStored }
    ensures masks { MasksListed }
{}
