//! The seats of a new network.

ghost use Rattle.std.specs.Prelude.{◌++◌, List, replicate, map, IfOk};
ghost use Rattle.std.specs.List.{AllByRecursion, AllZip};
ghost use Rattle.da_net.specs.Networks.{NodeKind, full, light};
ghost use Rattle.da_net.specs.Nodes.{HasSpareClaim, IsFreshNode};
ghost use Rattle.da_net.specs.Seats.{IsFreshSeat};

use crate::copies::ClaimRoom;
use crate::full::FullNode;
use crate::seats::{Node, Seat};
use data_header::Header;
use light_node::{LightNode, Picker};
use namespace_id::NoMemory;
use repair_queue::Session;
use std::alloc::Global;

/// A room for a claim of a square of width `k`.
fn spare(alloc: Global, k: u16) -> Result<Option<ClaimRoom>, NoMemory>
    ensures { IfOk result (HasSpareClaim k) }
{
    let Ok(cells) = Vec::with_capacity(alloc, k as usize) else {
        return Err(NoMemory);
    };
    let Ok(nodes) = Vec::with_capacity(alloc, k as usize) else {
        return Err(NoMemory);
    };
    Ok(Some(ClaimRoom { cells, nodes }))
}

/// The seat of a full node.
fn full_seat<F: Picker>(alloc: Global, header: &Header) -> Result<Seat<F>, NoMemory>
    ensures { IfOk result (IsFreshSeat F.picks header.now full) }
{
    let kept = spare(alloc, header.k)?;
    let published = spare(alloc, header.k)?;
    let session = Session::new(alloc, header)?;
    let node = Node::Full(FullNode {
        session: Some(session),
        end: None,
    });
    Ok(Seat {
        node,
        kept,
        published,
    })
}

/// The seat of a light node.
fn light_seat<F: Picker>(
    alloc: Global,
    header: &Header,
    node: LightNode<F>,
) -> Result<Seat<F>, NoMemory>
    requires { IsFreshNode F.picks header.now node }
    ensures { IfOk result (IsFreshSeat F.picks header.now (light node.wanted)) }
{
    let kept = spare(alloc, header.k)?;
    let published = spare(alloc, header.k)?;
    Ok(Seat {
        node: Node::Light(node),
        kept,
        published,
    })
}

/// The seats of so many full nodes.
fn full_seats<F: Picker>(
    alloc: Global,
    header: &Header,
    count: u16,
) -> Result<Vec<Seat<F>>, NoMemory>
    ensures { IfOk result (λ seats.
        AllZip (IsFreshSeat F.picks header.now) (replicate count full) seats.items) }
{
    let mut seats = Vec::new(alloc);
    for number in 0..count {
        let _number = number;
        let seat = full_seat(alloc, header)?;
        let Ok(()) = seats.push(seat) else {
            return Err(NoMemory);
        };
    }
    Ok(seats)
}

/// Adds the seats of light nodes.
fn add_lights<F: Picker>(
    alloc: Global,
    header: &Header,
    lights: Vec<LightNode<F>>,
    seats: Vec<Seat<F>>,
) -> Result<Vec<Seat<F>>, NoMemory>
    requires { AllByRecursion (IsFreshNode F.picks header.now) lights.items }
    ensures { IfOk result (λ more. (kinds : List NodeKind) →
        AllZip (IsFreshSeat F.picks header.now) kinds seats.items →
        AllZip (IsFreshSeat F.picks header.now) (kinds ++ map (λ n. light n.wanted) lights.items)
        more.items) }
{
    let mut seats = seats;
    for node in lights {
        let seat = light_seat(alloc, header, node)?;
        let Ok(()) = seats.push(seat) else {
            return Err(NoMemory);
        };
    }
    Ok(seats)
}

/// The seats of so many full nodes, and of light nodes.
pub(crate) fn make_seats<F: Picker>(
    alloc: Global,
    header: &Header,
    count: u16,
    lights: Vec<LightNode<F>>,
) -> Result<Vec<Seat<F>>, NoMemory>
    requires { AllByRecursion (IsFreshNode F.picks header.now) lights.items }
    ensures { IfOk result (λ seats. AllZip (IsFreshSeat F.picks header.now)
        (replicate count full ++ map (λ n. light n.wanted) lights.items) seats.items) }
{
    let seats = full_seats(alloc, header, count)?;
    add_lights(alloc, header, lights, seats)
}
