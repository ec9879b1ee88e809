// Theorem only: what is promised of every history of a journal (02, request 4). specs/Histories states it, and specs/Closed says it of the
// journal's code.
#![tactic(auto)]

ghost use Rattle.std.specs.Prelude.{[], replicate};
ghost use Rattle.journal.specs.Stores.{store_count};
ghost use Rattle.histories.specs.Histories.{off, History, EveryHistory};
ghost use Rattle.histories.specs.Example.{ExampleHistory};
ghost use Rattle.histories.specs.Closed.{RestartGoesOn, RestartKept, NextGoesOn, RaiseGoesOn, RaiseKept, PowerGoes, NoneTwice, RestartHeld, NextIsAbove, RaiseHeld, FirstRaise};

use journal::{Counter, Refused};

// No code: it holds the check to the theorem.
fn theorem()
    ensures every { EveryHistory }
    ensures twice { NoneTwice }
    ensures begins { History (replicate 4096 0) off [] }
    ensures example { ExampleHistory }
{}

// Not called: each makes calls of a history on the journal's code, for what it ensures alone.
fn restarts(area: &[u8]) -> Result<Counter, Refused>
    ensures history { RestartGoesOn area.now }
    ensures promise { RestartKept area.now result }
    ensures held { RestartHeld area.now result }
{
    journal::restart(area)
}

fn hands_out(counter: Counter, area: &[u8]) -> Result<(u64, Counter), Refused>
    ensures history { NextGoesOn area.now counter result }
    ensures above { NextIsAbove area.now counter result }
{
    journal::next(counter, area)
}

// What a raise answers, and then the restart after it. Two functions and no generic one, since each holds one call of a history; so with the
// next two.
fn raises(area: &mut [u8], value: u64) -> (Result<(), Refused>, Result<Counter, Refused>)
    ensures history { RaiseGoesOn area.old area.new }
    ensures promise { RaiseKept area.old value store_count result.0 result.1 }
    ensures first { FirstRaise area.old value result.0 result.1 }
{
    let answer = journal::raise(area, value);
    (answer, journal::restart(area))
}

fn stops(area: &mut [u8], value: u64, stores: u8) -> (Result<(), Refused>, Result<Counter, Refused>)
    ensures history { RaiseGoesOn area.old area.new }
    ensures promise { RaiseKept area.old value stores result.0 result.1 }
{
    let answer = journal::raise_part(area, value, stores);
    (answer, journal::restart(area))
}

// With a restart before the raise, so that the old ceiling is what the code finds.
fn raises_around(
    area: &mut [u8],
    value: u64,
) -> (
    Result<Counter, Refused>,
    Result<(), Refused>,
    Result<Counter, Refused>,
)
    ensures { RaiseHeld area.old value store_count result.0 result.1 result.2 }
{
    let before = journal::restart(area);
    let answer = journal::raise(area, value);
    (before, answer, journal::restart(area))
}

fn stops_around(
    area: &mut [u8],
    value: u64,
    stores: u8,
) -> (
    Result<Counter, Refused>,
    Result<(), Refused>,
    Result<Counter, Refused>,
)
    ensures { RaiseHeld area.old value stores result.0 result.1 result.2 }
{
    let before = journal::restart(area);
    let answer = journal::raise_part(area, value, stores);
    (before, answer, journal::restart(area))
}

fn loses_power(area: &[u8])
    ensures { PowerGoes area.now }
{}
