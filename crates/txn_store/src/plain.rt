//! The plain program: the places of the slots, looked at one after the other.

use crate::index::{IndexEnd, IndexPlace};
use server_key::{Key, KeyView};
use std::alloc::{AllocError as NoMemory, Global};

/// An index that keeps the places alone.
#[derive(Drop)]
pub struct Plain {
    places: Vec<IndexPlace>,
}

impl Plain {
    pub fn new(alloc: Global, slots: u32) -> Result<Plain, NoMemory> {
        let mut places = Vec::new(alloc);
        for _ in 0..slots {
            places.push(IndexPlace {
                generation: 0,
                key: None,
            })?;
        }
        Ok(Plain { places })
    }

    pub fn claim(&mut self, key: KeyView) -> Result<IndexEnd, NoMemory> {
        if let Some((slot, generation)) = self.find(key) {
            return Ok(IndexEnd::Old { slot, generation });
        }
        let alloc = *self.places.allocator();
        for (slot, place) in self.places.iter_mut().enumerate() {
            if place.key.is_none() {
                place.key = Some(Key::copy_of(alloc, key)?);
                return Ok(IndexEnd::New {
                    slot: (slot & 0xffff) as u32,
                    generation: place.generation,
                });
            }
        }
        Ok(IndexEnd::Full)
    }

    pub fn find(&self, key: KeyView) -> Option<(u32, u64)> {
        for (slot, place) in self.places.iter().enumerate() {
            if place.holds(key) {
                return Some(((slot & 0xffff) as u32, place.generation));
            }
        }
        None
    }

    pub fn free(&mut self, slot: u32) {
        if let Some(place) = self.places.get_mut(slot as usize) {
            place.generation = place.generation.saturating_add(1);
            place.key = None;
        }
    }
}
