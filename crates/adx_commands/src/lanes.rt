//! Lanes to a roster's bidders, over the links that workers are given.
ghost use Rattle.std.specs.Prelude.{IfOk};
ghost use Rattle.adx_commands.specs.Lanes.{FitLanes, FitWorkers};

use adx_units::OutOfMemory;
use deal_floor::Place;
use fan_out::Lane;
use std::alloc::Global;
use std::collections::VecDeque;

/// The lanes to bidders at these places over these links, in the order of both. None where there aren't as many links as
/// places.
fn lanes_over<L: Drop>(
    alloc: Global,
    places: &[Place],
    links: Vec<L>,
) -> Result<Option<Vec<Lane<L>>>, OutOfMemory>
    ensures { IfOk result (λ fit. FitLanes places.entry.now links.items fit) }
{
    let mut left = VecDeque::from(links);
    let mut lanes = Vec::new(alloc);
    'links: while let Some(link) = left.pop_front() {
        match places.get(lanes.as_slice().len()) {
            Some(place) => lanes.push(Lane::to(alloc, place, link)?)?,
            None => return Ok(None),
        }
    }
    if lanes.as_slice().len() < places.len() {
        return Ok(None);
    }
    Ok(Some(lanes))
}

/// The lanes of each worker to bidders at these places, over the worker's links. None where some worker hasn't as many links
/// as there are places.
pub(crate) fn workers_over<L: Drop>(
    alloc: Global,
    places: &[Place],
    lists: Vec<Vec<L>>,
) -> Result<Option<Vec<Vec<Lane<L>>>>, OutOfMemory>
    ensures { IfOk result (λ fit. FitWorkers places.entry.now lists.items fit) }
{
    let mut left = VecDeque::from(lists);
    let mut workers = Vec::new(alloc);
    'lists: while let Some(links) = left.pop_front() {
        match lanes_over(alloc, places, links)? {
            Some(lanes) => workers.push(lanes)?,
            None => return Ok(None),
        }
    }
    Ok(Some(workers))
}
