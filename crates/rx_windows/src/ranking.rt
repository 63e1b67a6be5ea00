ghost use Rattle.std.specs.Prelude.{◌≡◌, IsPermutation, AllPairs};
ghost use Rattle.rx_windows.specs.Rank.{IsBefore, HaveDistinctGateways, ranked};

use std::cmp::Reverse;
use uplink_gather::HeardCopy;

/// Sorts the copies of an uplink, each of another gateway, by how well they were heard, the best one first:
/// by greater SNR, then by greater RSSI, then by smaller gateway number (this project's profile). Takes no
/// memory.
pub fn rank(copies: &mut [HeardCopy])
    requires { HaveDistinctGateways copies.old }
    ensures value { copies.new ≡ ranked copies.old }
    ensures permutation { IsPermutation copies.old copies.new }
    ensures each_before_later { AllPairs IsBefore copies.new }
{
    copies.sort_unstable_by_key(|copy| (Reverse(copy.snr), Reverse(copy.rssi), copy.gateway));
}
