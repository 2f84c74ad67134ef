//! Which vehicle a line belongs to.

ghost use Rattle.std.specs.Prelude.{◌≡◌, ◌<◌, length, map, bytes_eq, position, option_map, MatchOption, IfSome};
ghost use Rattle.tfpg_fleet.specs.Belonging.{belongs, first_space};
ghost use Rattle.tfpg_fleet.specs.FleetState.{VehicleState};

use crate::vehicle::Vehicle;
use tfpg_log::is_too_long;

/// The index of the vehicle that a line belongs to, and the vehicle's own line.
pub(crate) fn addressee<'a>(vehicles: &[Vehicle], line: &'a [u8]) -> Option<(usize, &'a [u8])>
    ensures belongs { option_map (λ found. record { vehicle = found.0; text = found.1.now }) result
        ≡ belongs (map (λ (vehicle : VehicleState). vehicle.name) vehicles.now) line.now }
    ensures within { IfSome result (λ found. found.0 < length vehicles.now) }
{
    if is_too_long(line) {
        return None;
    }
    let space = first_space(line)?;
    let vehicle = vehicle_named(vehicles, &line[..space])?;
    Some((vehicle, &line[space + 1..]))
}

/// The index of the first space.
fn first_space(line: &[u8]) -> Option<usize>
    ensures space { result ≡ first_space line.now }
    ensures within { IfSome result (λ space. space < length line.now) }
{
    line.iter().position(|byte| *byte == b' ')
}

/// The index of the vehicle of this name.
fn vehicle_named(vehicles: &[Vehicle], name: &[u8]) -> Option<usize>
    ensures named { result ≡ position (λ (vehicle : VehicleState). bytes_eq vehicle.name name.now) vehicles.now }
    ensures within { IfSome result (λ vehicle. vehicle < length vehicles.now) }
{
    vehicles.iter().position(|vehicle| vehicle.is_named(name))
}
