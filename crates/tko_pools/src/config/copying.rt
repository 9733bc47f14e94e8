//! Copies of a configuration, for parts of a program that each own one. They share the rings.
ghost use Rattle.std.specs.Prelude.{◌≡◌, IfOk};

use super::Config;
use crate::child::Child;
use crate::numbering::copy_texts;
use std::alloc::Global;
use tko_bytes::NoMemory;

impl Config {
    pub fn copy(&self, alloc: Global) -> Result<Config, NoMemory>
        ensures { IfOk result (λ config. config ≡ self.now) }
    {
        Ok(Config {
            addresses: self.addresses.copy(alloc)?,
            names: copy_texts(alloc, &self.names)?,
            children: copy_children(alloc, &self.children)?,
            failover_exptime: self.failover_exptime,
            groups: self.groups.to_vec(alloc)?,
            soft_limits: self.soft_limits.to_vec(alloc)?,
        })
    }
}

fn copy_children(alloc: Global, children: &[Child]) -> Result<Vec<Child>, NoMemory>
    ensures { IfOk result (λ copies. copies.items ≡ children.now) }
{
    let mut copies = Vec::new(alloc);
    for child in children {
        copies.push(child.copy(alloc)?)?;
    }
    Ok(copies)
}
