// The hours of members that are walked over in order.
ghost use Rattle.std.specs.Prelude.{◌≡◌, ◌+◌, ◌*◌, ◌≤◌, ◌<◌, ◌^◌, ◌∷◌, ℕ, length, drop};
ghost use Rattle.radio_bands.specs.declared.band.Band.{Band as SubBand};
ghost use Rattle.resv_list.specs.declared.roster.TheConstants.{MAX_MEMBERS};
ghost use Rattle.resv_list.specs.Reservations.{IsByStart, airtime_in, begun};
ghost use Rattle.resv_tree.specs.Filling.{with_hours, IsAhead, IsAhead-prop};
ghost use Rattle.resv_tree.specs.Sums.{sum_in as sum_of};

use crate::entry::Entry;
use crate::sums::Sums;
use resv_list::{HOUR, MAX_MEMBERS, Reservation};

/// A walk over members that are by start, which gives each with the airtime of its own hour. It goes over them with two places
/// and the sums of what begins between these: an hour opens at the one and ends at the other, so each member is taken in once
/// and taken out once.
#[derive(Drop)]
pub(crate) struct Hours<'a> {
    /// Those that it has still to give.
    pub(crate) left: &'a [Reservation],
    /// Those of them that don't begin before the end of the hour that was opened last.
    ahead: &'a [Reservation],
    /// The airtime of all others of them.
    sums: Sums,
    ghost ahead_of: { IsAhead left.now ahead.now sums } by { IsAhead-prop left.now ahead.now sums },
}

impl<'a> Hours<'a> {
    /// A walk over all the members.
    pub(crate) fn of(members: &'a [Reservation]) -> Self
        requires by_start { IsByStart members.now }
        requires room { length members.now ≤ MAX_MEMBERS }
        ensures { result.left.now ≡ members.now }
    {
        Hours {
            left: members,
            ahead: members,
            sums: Sums::NONE,
        }
    }

    /// The next member, with its own hour.
    pub(crate) fn next(&mut self) -> Entry
        requires { 0 < length self.old.left.now }
        ensures given { with_hours self.old.left.now ≡ result ∷ with_hours self.new.left.now }
        ensures fewer { length self.old.left.now ≡ 1 + length self.new.left.now }
    {
        let member = self.left[0];
        let (count, sums) = taken_in(self.ahead, &self.sums, member.start + HOUR);
        let own = sums.quarters(member.band());
        self.left = &self.left[1..];
        self.ahead = &self.ahead[count..];
        self.sums = taken_out(&sums, &member);
        Entry {
            reservation: member,
            own,
        }
    }
}

/// How many of the members, which are by start, begin before `to`, and the sums with their airtime.
fn taken_in(members: &[Reservation], sums: &Sums, to: u64) -> (usize, Sums)
    requires by_start { IsByStart members.now }
    requires room { length members.now ≤ MAX_MEMBERS }
    requires fits { (band : SubBand) → sum_of sums.now band ≤ 2 ^ 22 * MAX_MEMBERS }
    ensures within { result.0 ≤ length members.now }
    ensures all { (band : SubBand) → begun band 0 to (drop result.0 members.now) ≡ 0 }
    ensures sums { (band : SubBand) (end : ℕ) → to ≤ end
        → sum_of result.1 band + begun band 0 end (drop result.0 members.now)
        ≡ sum_of sums.now band + begun band 0 end members.now }
{
    let mut count = 0;
    let mut taken = *sums;
    for member in members {
        if member.start >= to {
            return (count, taken);
        }
        count += 1;
        taken = Sums::around(&taken, member, &Sums::NONE);
    }
    (count, taken)
}

/// The sums without the member's airtime.
fn taken_out(sums: &Sums, member: &Reservation) -> Sums
    requires covers { (band : SubBand) → airtime_in band member.now ≤ sum_of sums.now band }
    requires fits { (band : SubBand) → sum_of sums.now band < 2 ^ 39 }
    ensures { (band : SubBand) → sum_of result band + airtime_in band member.now ≡ sum_of sums.now band }
{
    sums.exchanged(&Sums::around(&Sums::NONE, member, &Sums::NONE), &Sums::NONE)
}
