// What holds of a server's settings through its turns.
ghost use Rattle.serve_turns.specs.SettingsLaw.{SettingsStayAccepted};

use std::alloc::Allocator;

/// Whatever settings a server opens with, and whatever comes and whatever the world around answers in its turns: it might open once
/// more with what is set of its gateways and devices, and with the counters that the devices have. So whenever its desk is to be made
/// anew, and no uplink is left to be answered, that is done. A call does nothing.
pub fn law_settings_stay_accepted<A: Allocator>()
    ensures { SettingsStayAccepted A }
{}

/// The law by a call: so it ensures just this statement, and asks for nothing.
fn each_law<A: Allocator>()
    ensures { SettingsStayAccepted A }
{
    law_settings_stay_accepted::<A>();
}
