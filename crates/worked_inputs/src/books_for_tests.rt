// Books of gateways.

use gateway_book::GatewayBook;
use resv_tree::TreeRoster;
use std::alloc::Global;
use std::test::Fail;

pub type WorkedBook = GatewayBook<TreeRoster<Global>>;

/// The empty book of the gateway with this number.
pub fn book_of(alloc: Global, id: u16) -> Result<WorkedBook, Fail> {
    Ok(GatewayBook::new(TreeRoster::new(alloc), id, 4_096, 0)?)
}
