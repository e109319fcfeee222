//! The keys of mutations that are to come, searched together.
ghost use Rattle.span_mutate.specs.Typed.{AreTypedMutations};

use super::lookups::{Lookups, key_of};
use span_arena::token::NO_CHAIN;
use span_keycode::key::Key;
use span_keyindex::near::SEARCH_LANES;
use span_mutate::mutation::CheckedMutation;
use span_schema::schema::Schema;
use std::alloc::{AllocError, Global};

/// Chains of a store near the keys of the next mutations. Nothing rests on them: a look-up that begins at one finds what any other does.
#[derive(Drop)]
pub(crate) struct NearChains {
    near: [u32; SEARCH_LANES],
    place: usize,
}

impl NearChains {
    /// Nothing is searched yet.
    pub(crate) fn new() -> NearChains {
        NearChains {
            near: [NO_CHAIN; SEARCH_LANES],
            place: 0,
        }
    }

    /// The chain near the key of the next of these mutations; each call goes on by one. It takes memory for `SEARCH_LANES` keys at a
    /// time, and where there is none, nothing is searched ahead.
    pub(crate) fn next(
        &mut self,
        alloc: Global,
        schema: &Schema,
        store: &Lookups<'_>,
        mutations: &[CheckedMutation],
    ) -> u32
        requires { AreTypedMutations schema.now mutations.now }
    {
        let lane = self.place % SEARCH_LANES;
        if lane == 0 {
            self.near = match keys_from(alloc, schema, store, mutations, self.place) {
                Ok(keys) => near(store, keys.as_slice()),
                Err(_) => [NO_CHAIN; SEARCH_LANES],
            };
        }
        self.place = self.place.wrapping_add(1);
        self.near[lane]
    }
}

fn near(store: &Lookups<'_>, keys: &[Key]) -> [u32; SEARCH_LANES] {
    if keys.is_empty() {
        return [NO_CHAIN; SEARCH_LANES];
    }
    store.near(keys)
}

// The keys of up to `SEARCH_LANES` mutations from a place on, before the first that is known to have no row. That is known of the first
// mutation's key wherever the others are.
fn keys_from(
    alloc: Global,
    schema: &Schema,
    store: &Lookups<'_>,
    mutations: &[CheckedMutation],
    place: usize,
) -> Result<Vec<Key>, AllocError>
    requires { AreTypedMutations schema.now mutations.now }
{
    let mut keys = Vec::new(alloc);
    for at in place..mutations.len().min(place.saturating_add(SEARCH_LANES)) {
        let Some(key) = key_of(alloc, schema, &mutations[at]) else {
            return Ok(keys);
        };
        if at > 0 && store.is_known_absent(key.as_slice()) {
            return Ok(keys);
        }
        keys.push(key)?;
    }
    Ok(keys)
}
