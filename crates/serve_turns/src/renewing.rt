// A server's journal is written anew.
ghost use Rattle.std.specs.Prelude.{◌≤◌, ◌≡◌, ◌^◌, IfOk, OnOk, OnErr};
ghost use Rattle.serve_turns.specs.Life.{IsReady};
ghost use Rattle.serve_turns.specs.Renewing.{after_renewal, is_in_place, is_to_be_renewed, renewal_effects, renewing, renewing_effects};
ghost use Rattle.serve_turns.specs.Turn.{Did, Broke};

use crate::answerer::Answerer;
use crate::host::Host;
use forwarder_sessions::NoMemory;
use serve_renewal::renewal_of;
use std::alloc::Allocator;
use std::hash::BuildHasher;

impl<S: BuildHasher, A: Allocator + Copy> Answerer<S, A> {
    /// Writes the journal anew, if one is kept, where that is to be done when the server's clock shows `now`, in microseconds and at
    /// most 2^60.
    pub(crate) fn renew_if_due<H: Host>(&mut self, host: &mut H, now: u64) -> Result<(), NoMemory>
        requires early { now ≤ 2 ^ 60 }
        requires ready { IsReady self.old }
        ensures done { OnOk result (Did (H.effects host.old) (H.effects host.new) (after_renewal now) (renewal_effects now)
            self.old self.new) }
        ensures broken { OnErr result (Broke (H.effects host.old) (H.effects host.new) (renewal_effects now) self.old) }
    {
        if !self.is_to_be_renewed(now) {
            return Ok(());
        }
        self.renew(host, now)?;
        Ok(())
    }

    /// Whether the journal is to be written anew.
    fn is_to_be_renewed(&self, now: u64) -> bool
        ensures { result ≡ is_to_be_renewed now self.now.keeping }
    {
        match &self.keeping {
            None => false,
            Some(keeping) => keeping.is_renewed(now),
        }
    }

    /// Writes the journal anew, if one is kept, and answers whether it was put in place.
    pub(crate) fn renew<H: Host>(&mut self, host: &mut H, now: u64) -> Result<bool, NoMemory>
        requires early { now ≤ 2 ^ 60 }
        requires ready { IsReady self.old }
        ensures text { OnOk result (self.new.text ≡ self.old.text) }
        ensures in_place { IfOk result (λ is_done. is_done ≡ is_in_place self.new.keeping) }
        ensures done { OnOk result (Did (H.effects host.old) (H.effects host.new) (renewing now) (renewing_effects now)
            self.old self.new) }
        ensures broken { OnErr result (Broke (H.effects host.old) (H.effects host.new) (renewing_effects now) self.old) }
    {
        let Some(keeping) = &mut self.keeping else {
            return Ok(false);
        };
        let sessions = self.forwarders.sessions();
        let journal = renewal_of(self.alloc, &self.server, sessions, keeping.sessions(), now)?;
        let is_done = host.replace(&journal);
        keeping.renew(now, &journal, is_done);
        Ok(is_done)
    }
}
