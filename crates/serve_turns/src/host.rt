// What a server has of the world around it.
ghost use Rattle.std.specs.Prelude.{◌≤◌, [], ◌∷◌, List, Option, None, length, IfSome, OnErr, OnOk};
ghost use Rattle.serve_turns.specs.Effects.{Effect, Receives, Rests, Shows, Acknowledges, Appends, Syncs, Replaces, Sends, Tells, Cuts, Adds, given};

use forwarder_sessions::Endpoint;
use text_lines::CallFailed;

/// A datagram that came.
#[derive(Clone, Copy, Debug)]
pub struct Came {
    /// Where it came from.
    pub source: Endpoint,
    /// How many bytes it has.
    pub len: usize,
}

/// What a server has of the world around it: datagrams, a clock, the file of its journal, and where its lines go. A server that keeps
/// no journal asks for no file.
pub trait Host {
    // What it did and saw, the first first, where the type tells it.
    ghost effects: { Self → Option (List Effect) } = { λ _. None };

    /// Waits a short time for a datagram (a server's turn is 5 ms long where none comes), and puts it into the front of `into`, as
    /// much of it as there is room for; None where none came.
    fn receive(&mut self, into: &mut [u8]) -> Option<Came>
        ensures bound { IfSome result (λ came. came.len ≤ length into.new) }
        ensures seen { Adds (effects self.old) (effects self.new) (Receives (given result into.new) ∷ []) };

    /// Waits as long as `receive` does where no datagram comes, and receives none: what comes meanwhile may be received later.
    fn rest(&mut self)
        ensures { Adds (effects self.old) (effects self.new) (Rests ∷ []) };

    /// What the server's clock shows, in microseconds since it began; None where it can't be read.
    fn now(&mut self) -> Option<u64>
        ensures { Adds (effects self.old) (effects self.new) (Shows result ∷ []) };

    /// Sends an acknowledgement, or the answer to a program on the machine itself. A packet forwarder that gets none sends its
    /// datagram once more, or counts it as lost.
    fn acknowledge(&mut self, to: Endpoint, bytes: &[u8])
        ensures { Adds (effects self.old) (effects self.new) (Acknowledges to bytes.now ∷ []) };

    /// Adds bytes to the journal's file, and answers whether all of them were added.
    fn append(&mut self, bytes: &[u8]) -> bool
        ensures { Adds (effects self.old) (effects self.new) (Appends bytes.now result ∷ []) };

    /// Has the disk keep what was added to the journal's file, and answers whether it does.
    fn sync(&mut self) -> bool
        ensures { Adds (effects self.old) (effects self.new) (Syncs result ∷ []) };

    /// Puts a whole journal in the place of the journal's file, so that the disk has the old one or the new one at any moment, and
    /// answers whether it keeps the new one. What is added later goes behind it.
    fn replace(&mut self, journal: &[u8]) -> bool
        ensures { Adds (effects self.old) (effects self.new) (Replaces journal.now result ∷ []) };

    /// Sends a PULL_RESP, and answers whether it went out.
    fn send(&mut self, to: Endpoint, bytes: &[u8]) -> bool
        ensures { Adds (effects self.old) (effects self.new) (Sends to bytes.now result ∷ []) };

    /// Tells lines, each with its end, to whoever reads the server's output. Err where not all of them were written.
    fn tell(&mut self, lines: &[u8]) -> Result<(), CallFailed>
        ensures told { OnOk result (Adds (effects self.old) (effects self.new) (Tells lines.now ∷ [])) }
        ensures cut { OnErr result (Adds (effects self.old) (effects self.new) (Cuts lines.now ∷ [])) };
}
