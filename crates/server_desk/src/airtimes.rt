// How long each gateway was on air for the answers that were settled.

ghost use Rattle.std.specs.Prelude.{◌≡◌, ◌≢◌, ◌==◌, ◌<◌, length, AllPairs, IfSome};
ghost use Rattle.std.specs.Option.{option_map};
ghost use Rattle.server_desk.specs.Register.{first_at};
ghost use Rattle.server_desk.specs.Airtime.{CanRaise, answered_for, raised, total_at};
ghost use Rattle.server_desk.specs.Desk.{total_of};

use crate::Desk;
use crate::answers::Sent;
use std::alloc::Allocator;
use std::hash::BuildHasher;

impl<S: BuildHasher, A: Allocator> Desk<S, A> {
    /// The numbers of the desk's gateways, in the order of its settings: no two are the same, and all settled answers that
    /// were booked were booked on one of them. Takes no memory.
    pub fn gateways(&self) -> &[u16]
        ensures same { result.now ≡ self.now.ids }
        ensures differ { AllPairs (λ a b. a ≢ b) self.now.ids }
        ensures whole { total_at self.now.ids self.now.known ≡ total_of self.now }
    {
        self.gateways.as_slice()
    }

    /// The airtime, in microseconds, of the settled answers that were booked on the gateway with this number; `None`
    /// where it isn't in the desk's settings. Takes no memory.
    #[tactic(auto, using(crate::proofs::AirtimeLemmas::as_many))]
    pub fn answered(&self, gateway: u16) -> Option<u64>
        ensures { result ≡ answered_for self.now.ids self.now.known gateway }
    {
        let place = place_in(&self.gateways, gateway)?;
        Some(self.answered[place])
    }
}

/// Adds the airtime of what was sent to that of its gateway.
pub(crate) fn raise<A: Allocator>(ids: &[u16], airtimes: &mut Vec<u64, A>, sent: Option<Sent>)
    requires { CanRaise ids.now airtimes.old.items sent }
    ensures { airtimes.new.items ≡ raised ids.now sent airtimes.old.items }
{
    let Some(sent) = sent else {
        return;
    };
    let Some(place) = place_in(ids, sent.gateway) else {
        return;
    };
    airtimes[place] += sent.airtime;
}

/// The place of the gateway with this number.
fn place_in(ids: &[u16], gateway: u16) -> Option<usize>
    ensures found { result ≡ option_map (λ found. found.0) (first_at (λ id. id == gateway) ids.now) }
    ensures within { IfSome result (λ place. place < length ids.now) }
{
    ids.iter().position(|id| *id == gateway)
}
