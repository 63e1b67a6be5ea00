// Where datagrams come from, one receive at a time.
ghost use Rattle.std.specs.Prelude.{◌≤◌, [], ◌∷◌, IfSome, length};
ghost use Rattle.airbook_text.specs.Receives.{Seen, given, AreMade};

/// A source of datagrams.
pub trait Source {
    // How many receives were made, and for each of them what room it had and what it gave, if the type tells it.
    ghost seen: { Self → Seen };

    /// Makes one receive: puts a datagram into the front of `into`, as much of it as there is room for (a server that listens has
    /// room for 1,027 bytes), and answers how many bytes these are; None where the receive failed.
    fn next(&mut self, into: &mut [u8]) -> Option<usize>
        ensures bound { IfSome result (λ count. count ≤ length into.new) }
        ensures made { AreMade (length into.old) 1 (seen self.old) (seen self.new) (given result into.new ∷ []) };
}
