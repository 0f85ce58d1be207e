// The library for programs in other languages: a thin layer over the crates below, whose definitions its contracts cite.
#![tactic(auto)]

ghost use Rattle.std.specs.Prelude.{◌≡◌};
ghost use Rattle.growth.specs.Growth;
ghost use Rattle.sheet.specs.Lookup.{found_of};
ghost use Rattle.joining.specs.Join.{Joins};
ghost use Rattle.pricing.specs.Price.{price_of};
ghost use Rattle.planning.specs.Promise.{Plans};
ghost use Rattle.planning.specs.Energy.{PlansByEnergy};
ghost use Rattle.engine.specs.Promise.{PlansAsPrinted};
ghost use Rattle.starting.specs.Start.{start_of};
ghost use Rattle.logs.specs.Log.{log_of};
ghost use Rattle.naming.specs.Calls.{name_of, drop_of, return_of};
ghost use Rattle.naming.specs.Log as named;

use costs::Powers;
use following::Stepped;
use joining::Joined;
use named::NamedRun;
use naming::NamedStepped;
use refusals::Answer;
use sheet::Found;
use starting::Started;
use state::Run;

#[unsafe(no_mangle)]
pub extern "C" fn pulvanor_growth(y: u64) -> u64
    ensures { result ≡ Growth.G y }
{
    growth::g(y)
}

#[unsafe(no_mangle)]
pub extern "C" fn pulvanor_mean_growth(y: u64) -> u64
    ensures { result ≡ Growth.H y }
{
    growth::h(y)
}

#[unsafe(no_mangle)]
pub extern "C" fn pulvanor_lookup(sheet: &[u8], kind: u64) -> Found
    ensures { result ≡ found_of sheet.now kind }
{
    sheet::lookup::find(sheet, kind)
}

#[unsafe(no_mangle)]
pub extern "C" fn pulvanor_join(first: &[u8], second: &[u8], buffer: &mut [u8]) -> Joined
    ensures { Joins first.now second.now buffer.old buffer.new result }
{
    joining::join(first, second, buffer)
}

#[unsafe(no_mangle)]
pub extern "C" fn pulvanor_price(sheet: &[u8], marks: &[u8]) -> Answer
    ensures { result ≡ price_of sheet.now marks.now }
{
    pricing::price(sheet, marks)
}

#[unsafe(no_mangle)]
pub extern "C" fn pulvanor_plan(sheet: &[u8], buffer: &mut [u8]) -> Answer
    ensures { Plans sheet.now buffer.old buffer.new result }
{
    planning::plan(sheet, buffer)
}

// The plan by energy, where the powers are one for computing and verifying and one for saving and recovering.
#[unsafe(no_mangle)]
pub extern "C" fn pulvanor_energy(
    sheet: &[u8],
    computing: u64,
    saving: u64,
    buffer: &mut [u8],
) -> Answer
    ensures { PlansByEnergy (record { computing = computing; saving = saving }) sheet.now buffer.old buffer.new result }
{
    planning::energy::plan_energy(sheet, Powers { computing, saving }, buffer)
}

// The plan of a sheet of up to 8 tasks, by the equations as printed.
#[unsafe(no_mangle)]
pub extern "C" fn pulvanor_printed(sheet: &[u8], buffer: &mut [u8]) -> Answer
    ensures { PlansAsPrinted sheet.now buffer.old buffer.new result }
{
    engine::printed(sheet, buffer)
}

#[unsafe(no_mangle)]
pub extern "C" fn pulvanor_start(sheet: &[u8], marks: &[u8]) -> Started
    ensures { result ≡ start_of sheet.now marks.now }
{
    starting::start(sheet, marks)
}

// The records of a log; one record is one event.
#[unsafe(no_mangle)]
pub extern "C" fn pulvanor_follow(run: Run, log: &[u8]) -> Stepped
    ensures { result ≡ log_of run log.now }
{
    logs::follow(run, log)
}

// The present place of a run, under a name.
#[unsafe(no_mangle)]
pub extern "C" fn pulvanor_name(state: NamedRun, name: u8) -> NamedStepped
    ensures { result ≡ name_of state name }
{
    naming::name(state, name)
}

#[unsafe(no_mangle)]
pub extern "C" fn pulvanor_drop(state: NamedRun, name: u8) -> NamedStepped
    ensures { result ≡ drop_of state name }
{
    naming::drop_name(state, name)
}

// Back to the place under a name.
#[unsafe(no_mangle)]
pub extern "C" fn pulvanor_return(state: NamedRun, name: u8) -> NamedStepped
    ensures { result ≡ return_of state name }
{
    naming::return_to(state, name)
}

// The records of a log, from a run with names.
#[unsafe(no_mangle)]
pub extern "C" fn pulvanor_follow_named(state: NamedRun, log: &[u8]) -> NamedStepped
    ensures { result ≡ named.log_of state log.now }
{
    naming::follow(state, log)
}
