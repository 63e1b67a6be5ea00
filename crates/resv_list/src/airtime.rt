// The airtime of a list.
ghost use Rattle.std.specs.Prelude.{◌≡◌, ◌≤◌, length};
ghost use Rattle.resv_list.specs.declared.roster.TheConstants.{MAX_MEMBERS};
ghost use Rattle.resv_list.specs.Reservations.{net};

use crate::Reservation;

/// The airtime of the members, at most 65,536, in microseconds.
pub fn airtime_of(members: &[Reservation]) -> u64
    requires { length members.now ≤ MAX_MEMBERS }
    ensures { result ≡ net members.now }
{
    members.iter().map(|member| member.airtime()).sum()
}
