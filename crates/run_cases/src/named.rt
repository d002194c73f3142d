//! Texts by name, which cases share.

use std::alloc::Global;

/// A text and its name.
#[derive(Drop)]
struct Named {
    name: String,
    text: String,
}

/// Texts by name, in the order of their definition.
#[derive(Drop)]
pub struct NamedTexts {
    list: Vec<Named>,
}

impl NamedTexts {
    /// No texts.
    pub fn new(alloc: Global) -> NamedTexts {
        NamedTexts {
            list: Vec::new(alloc),
        }
    }

    /// Adds what `NAME TEXT` defines. None without a space, or for want of memory.
    pub fn define(&mut self, alloc: Global, value: &str) -> Option<()> {
        let (name, text) = value.split_once(' ')?;
        let named = Named {
            name: String::from_str(alloc, name).ok()?,
            text: String::from_str(alloc, text).ok()?,
        };
        self.list.push(named).ok()
    }

    /// The first text of a name.
    pub fn get(&self, name: &str) -> Option<&str> {
        for named in &self.list {
            if named.name.as_str() == name {
                return Some(named.text.as_str());
            }
        }
        None
    }
}
