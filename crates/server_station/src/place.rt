ghost use Rattle.std.specs.Prelude.{◌≡◌, ◌≢◌, ◌==◌, map, All, AllPairs, IfOk, find};
ghost use Rattle.std.specs.Option.{option_map};
ghost use Rattle.server_desk.specs.Settings.{IsGatewayInRange};
ghost use Rattle.server_station.specs.Stations.{AreInOrder};

use server_desk::{Book, GatewaySetting, empty_book};
use std::alloc::{AllocError, Allocator};
use std::marker::Model;
use std::sync::Mutex;

/// A gateway's book behind its own lock. Seen as the gateway's number.
#[derive(Drop)]
pub(crate) struct Place<A: Allocator + Copy> {
    pub(crate) id: u16,
    pub(crate) book: Mutex<Book<A>>,
}

impl<A: Allocator + Copy> Model for Place<A> {
    ghost use Rattle.std.specs.Prelude.{ℕ};

    ghost Value = { ℕ };

    ghost view = { λ p. p.id };
}

/// An empty book for each gateway, by their numbers, which differ.
pub(crate) fn places_of<A: Allocator + Copy>(
    alloc: A,
    gateways: &[GatewaySetting],
) -> Result<Vec<Place<A>, A>, AllocError>
    requires range { All IsGatewayInRange gateways.now }
    requires differ { AllPairs (λ g h. g.id ≢ h.id) gateways.now }
    ensures { IfOk result (λ places. AreInOrder gateways.now places.items) }
{
    let mut places = empty_places(alloc, gateways)?;
    places.sort_unstable_by_key(|place| place.id);
    Ok(places)
}

/// An empty book for each gateway, in their order.
fn empty_places<A: Allocator + Copy>(
    alloc: A,
    gateways: &[GatewaySetting],
) -> Result<Vec<Place<A>, A>, AllocError>
    requires { All IsGatewayInRange gateways.now }
    ensures { IfOk result (λ places. places.items ≡ map (λ g. g.id) gateways.now) }
{
    let mut places = Vec::with_capacity(alloc, gateways.len())?;
    for gateway in gateways {
        places.push(empty_place(alloc, gateway))?;
    }
    Ok(places)
}

/// A gateway with an empty book.
fn empty_place<A: Allocator + Copy>(alloc: A, gateway: &GatewaySetting) -> Place<A>
    requires { IsGatewayInRange gateway.now }
    ensures { result ≡ gateway.now.id }
{
    Place {
        id: gateway.id,
        book: Mutex::new(empty_book(alloc, gateway)),
    }
}

/// The first of these gateways with this number.
pub(crate) fn place_numbered<A: Allocator + Copy>(places: &[Place<A>], id: u16) -> Option<&Place<A>>
    ensures { option_map (λ place. place.now) result ≡ find (λ other. other == id) places.now }
{
    places.iter().find(|place| place.id == id)
}
