// The book of one of a server's gateways.
ghost use Rattle.std.specs.Prelude.{◌≡◌, []};
ghost use Rattle.server_desk.specs.Settings.{IsGatewayInRange};
ghost use Rattle.server_desk.specs.World.{rules_of};

use crate::GatewaySetting;
use gateway_book::GatewayBook;
use resv_tree::TreeRoster;
use std::alloc::Allocator;

/// The book that a server keeps of a gateway.
pub type Book<A> = GatewayBook<TreeRoster<A>>;

/// The empty book of a gateway with this setting, which is one of accepted settings. Takes no memory.
pub fn empty_book<A: Allocator + Copy>(alloc: A, gateway: &GatewaySetting) -> Book<A>
    requires { IsGatewayInRange gateway.now }
    ensures { result ≡ record {
      id = gateway.now.id;
      rules = rules_of gateway.now;
      floor = 0;
      list = [];
      booked = 0;
      cancelled =
          0;
      retired = 0;
    } }
{
    // The cap and the gap of a setting are in range.
    let Ok(book) = Book::new(TreeRoster::new(alloc), gateway.id, gateway.cap, gateway.gap) else {
        unreachable!()
    };
    book
}
