//! A child of the route.
ghost use Rattle.std.specs.Prelude.{◌≡◌, ◌<◌, IfOk, IfSome, length, option_map};
ghost use Rattle.std.specs.Arc.{arc_value};
ghost use Rattle.tko_pools.specs.Children.{IsSoundChild, owner_place, hash_server};
ghost use Rattle.tko_pools.specs.Configs.{alone};
ghost use Rattle.tko_ring.specs.Rings.{server_place};

use crate::hashing::Hashing;
use std::alloc::Global;
use std::marker::Model;
use std::sync::Arc;
use tko_bytes::NoMemory;
use tko_ring::{KeyHash, KeyPart, Ring};

/// The servers of a pool by their numbers, and to which of them a hash belongs. In contracts it is
/// a `Child` of specs/.
#[derive(Drop)]
pub(crate) struct Child {
    servers: Vec<usize>,
    hashing: Hashing,
    /// The points of the servers, by their places in the list. Copies of a child share it.
    ring: Option<Arc<Ring>>,
}

impl Model for Child {
    ghost use Rattle.std.specs.Prelude.{option_map};
    ghost use Rattle.std.specs.Arc.{arc_value};
    ghost use Rattle.tko_pools.specs.Children.{Child, IsSoundChild};

    ghost Value = { Child };

    ghost view = { λ c. record {
      servers = c.servers.items;
      hash = c.hashing.hash;
      part = c.hashing.part;
      ring = option_map (λ ring. arc_value ring) c.ring;
    } };

    ghost invariant = { λ c. IsSoundChild (record {
      servers = c.servers.items;
      hash = c.hashing.hash;
      part = c.hashing.part;
      ring = option_map (λ ring. arc_value ring) c.ring;
    }) };
}

impl Child {
    /// A child of these servers.
    pub fn new(servers: Vec<usize>, hashing: Hashing, ring: Option<Arc<Ring>>) -> Child
        requires { IsSoundChild (record {
          servers = servers.items;
          hash = hashing.hash;
          part = hashing.part;
          ring = option_map (λ ring. arc_value ring) ring;
        }) }
        ensures { result ≡ record {
          servers = servers.items;
          hash = hashing.hash;
          part = hashing.part;
          ring = option_map (λ ring. arc_value ring) ring;
        } }
    {
        Child {
            servers,
            hashing,
            ring,
        }
    }

    /// A child of one server.
    pub fn alone(alloc: Global, number: usize) -> Result<Child, NoMemory>
        ensures { IfOk result (λ child. child ≡ alone number) }
    {
        Ok(Child {
            servers: vec![in alloc; number]?,
            hashing: Hashing {
                hash: KeyHash::Fnv1a,
                part: KeyPart::Whole,
            },
            ring: None,
        })
    }

    pub fn copy(&self, alloc: Global) -> Result<Child, NoMemory>
        ensures { IfOk result (λ copy. copy ≡ self.now) }
    {
        Ok(Child {
            servers: self.servers.to_vec(alloc)?,
            hashing: self.hashing.copy(alloc)?,
            ring: shared(&self.ring)?,
        })
    }

    /// The numbers of its servers.
    pub fn servers(&self) -> &[usize]
        ensures { result.now ≡ self.now.servers }
    {
        self.servers.as_slice()
    }

    pub fn hashing(&self) -> &Hashing
        ensures hash { result.now.hash ≡ self.now.hash }
        ensures part { result.now.part ≡ self.now.part }
    {
        &self.hashing
    }

    /// The points of its servers, if it has a ring.
    pub fn ring(&self) -> Option<&Ring>
        ensures { option_map (λ ring. ring.now) result ≡ self.now.ring }
    {
        match &self.ring {
            Some(ring) => Some(&**ring),
            None => None,
        }
    }

    /// The server that a hash belongs to.
    pub fn server(&self, hash: u32) -> usize
        ensures { result ≡ hash_server self.now hash }
    {
        self.servers[place(&self.ring, self.servers.len(), hash)]
    }
}

/// The same ring, for one more owner.
fn shared(ring: &Option<Arc<Ring>>) -> Result<Option<Arc<Ring>>, NoMemory>
    ensures { IfOk result (λ shared. option_map (λ ring. arc_value ring) shared
        ≡ option_map (λ ring. arc_value ring) ring.now) }
{
    match ring {
        Some(ring) => Ok(Some(Arc::try_clone(ring)?)),
        None => Ok(None),
    }
}

/// The place of the server that a hash belongs to, of so many.
fn place(ring: &Option<Arc<Ring>>, servers: usize, hash: u32) -> usize
    requires some { 0 < servers }
    ensures value { result
        ≡ owner_place (option_map (λ ring. arc_value ring) ring.now) servers hash }
{
    match ring {
        Some(ring) => ring.place_of(hash) as usize,
        None => hash as usize % servers,
    }
}
