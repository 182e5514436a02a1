// The bells of the threads of a network.
use ff_plan::Party;
use ff_rec::NoMemory;
use ff_ring::Bell;
use std::alloc::Global;
use std::sync::Arc;

/// The bell of the calling thread and those of the units' threads, by the units' numbers. No contract speaks of bells: one
/// that isn't there would only be missed.
#[derive(Drop)]
pub(crate) struct Bells {
    pub(crate) own: Arc<Bell, Global>,
    pub(crate) units: Vec<Arc<Bell, Global>>,
}

impl Bells {
    /// Bells for the calling thread and so many units.
    pub(crate) fn new(alloc: Global, count: usize) -> Result<Bells, NoMemory> {
        let mut units = Vec::with_capacity(alloc, count)?;
        for _ in 0..count {
            units.push(Arc::new(alloc, Bell::new())?)?;
        }
        Ok(Bells {
            own: Arc::new(alloc, Bell::new())?,
            units,
        })
    }

    /// The bell of the unit with this number.
    pub(crate) fn unit(&self, number: usize) -> &Arc<Bell, Global> {
        self.units.get(number).unwrap_or(&self.own)
    }

    /// The bell of an edge's writer or reader.
    pub(crate) fn of(&self, party: Party) -> &Arc<Bell, Global> {
        match party {
            Party::Caller => &self.own,
            Party::Unit(number) => self.unit(number as usize),
        }
    }
}
