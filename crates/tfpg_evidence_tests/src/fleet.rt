//! The call of `tfpg_fleet` that no command makes: the log of a vehicle, which is that of its own lines.

ghost use Rattle.std.specs.Prelude.{◌≡◌, ◌<◌, IfOk, length};
ghost use Rattle.tfpg_fleet.specs.Belonging.{AreVehicleNames};

use crate::given::ONE;
use std::alloc::Global;
use std::marker::Brand;
use std::sync::ledger::{Blank, Ledger};
use std::test::Fail;
use tfpg_base::{Bytes, NoMemory, Steps};
use tfpg_fleet::{Fleet, NameList};
use tfpg_graph::{Graph, read};

/// Lines of two vehicles, of which the second refuses one, and a stray line.
const LINES: [&[u8]; 6] = [
    b"north 30 alarm A",
    b"south 5 tick",
    b"south 4 tick",
    b"west 6 tick",
    b"south 7 alarm E",
    b"south 8 tick",
];

/// A copy of the bytes.
fn bytes_of(alloc: Global, bytes: &[u8]) -> Result<Bytes, NoMemory>
    ensures { IfOk result (λ copy. copy ≡ bytes.now) }
{
    let mut copy = Vec::new(alloc);
    copy.extend_from_slice(bytes)?;
    Ok(Bytes::from_vec(copy))
}

/// The names north and south.
fn two_names(alloc: Global) -> Result<NameList, NoMemory>
    ensures names { IfOk result AreVehicleNames }
    ensures two { IfOk result (λ names. length names ≡ 2) }
{
    let mut names = NameList::new(alloc);
    names.push(bytes_of(alloc, b"north")?)?;
    names.push(bytes_of(alloc, b"south")?)?;
    Ok(names)
}

/// Takes the lines.
fn take_lines<L: Ledger>(
    fleet: &mut Fleet,
    lines: &[&[u8]],
    work: &mut Steps<L>,
) -> Result<(), Fail>
    ensures { length fleet.new.vehicles ≡ length fleet.old.vehicles }
{
    for line in lines {
        if fleet.line(line, work).is_err() {
            return Err(Fail::from("a line is not taken"));
        }
    }
    Ok(())
}

/// How many events the logs of the two vehicles have after the lines.
fn event_counts<L: Ledger>(fleet: &mut Fleet, work: &mut Steps<L>) -> Result<(u32, u32), Fail>
    requires { length fleet.old.vehicles ≡ 2 }
{
    take_lines(fleet, &LINES, work)?;
    Ok((fleet.log(0).len(), fleet.log(1).len()))
}

/// A new fleet of the vehicles of these two names.
fn fleet_of(alloc: Global, graph: &Graph, names: &NameList) -> Result<Fleet, Fail>
    requires names { AreVehicleNames names.now }
    requires two { length names.now ≡ 2 }
    ensures { IfOk result (λ fleet. length fleet.vehicles ≡ 2) }
{
    match Fleet::new(alloc, graph, names, 1, 0, 100) {
        Ok(fleet) => Ok(fleet),
        Err(_) => Err(Fail::from("no fleet")),
    }
}

/// How many events the logs of two new vehicles of this graph have after the lines.
fn event_counts_on<L: Ledger>(
    alloc: Global,
    graph: &Graph,
    work: &mut Steps<L>,
) -> Result<(u32, u32), Fail> {
    let names = two_names(alloc)?;
    let mut fleet = fleet_of(alloc, graph, &names)?;
    event_counts(&mut fleet, work)
}

/// The same with a graph and a counter of steps of its own.
fn event_counts_alone<L: Ledger>(alloc: Global, blank: Blank) -> Result<(u32, u32), Fail>
    requires name { blank.name ≡ L.name }
    requires parts { blank.parts ≡ L.parts }
    requires some { 0 < blank.parts }
{
    let mut work = Steps::<L>::new(blank);
    let graph = read(alloc, ONE)?;
    event_counts_on(alloc, &graph, &mut work)
}

#[test]
fn each_vehicle_has_the_log_of_its_own_lines(rt: HostRuntime) -> Result<(), Fail> {
    let (north, south) = event_counts_alone::<Brand>(rt.alloc(), Blank::new(1))?;
    assert_eq!(rt; north, 1);
    assert_eq!(rt; south, 3);
    Ok(())
}
