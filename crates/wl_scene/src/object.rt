//! JSON objects that are written.

ghost use Rattle.std.specs.Prelude.{◌≡◌, false};
ghost use Rattle.serde_json.specs.View.{members_view};
ghost use Rattle.serde_json.specs.Written.{members_have_float};

use crate::numbers::{of_links, of_sets, of_u16s, of_u32s};
use crate::runs::of_runs;
use serde_json::{Map, Value};
use std::alloc::Global;
use wl_elem::{LinkSet, Memory};

/// An object that is being built. Each member goes to the place of its name, and none has a float, so
/// the text is known octet by octet.
#[derive(Drop)]
pub struct Object {
    alloc: Global,
    members: Map<String, Value>,
    ghost no_float: { members_have_float (members_view members.entries) ≡ false },
}

impl Object {
    ghost use Rattle.std.specs.Prelude.{◌∷◌, OnOk, IfOk};
    ghost use Rattle.std.specs.String.{string_bytes};
    ghost use Rattle.serde_json.specs.Data.{null, boolean, string, array, object, no_members, put};
    ghost use Rattle.serde_json.specs.View.{view, items_view};
    ghost use Rattle.serde_json.specs.Written.{has_float, items_have_float, compact_text};
    ghost use Rattle.wl_scene.specs.Objects.{whole, wholes};
    ghost use Rattle.wl_scene.specs.Report.{ids_of, runs, runs_data};
    ghost use Rattle.wl_scene.specs.Built.{built};

    /// An object with no members. It takes no memory.
    pub fn new(alloc: Global) -> Object
        ensures { built result ≡ no_members }
    {
        Object {
            alloc,
            members: Map::new(alloc),
        }
    }

    /// Puts a member in.
    fn put(&mut self, name: &str, value: Value) -> Result<(), Memory>
        requires { has_float (view value) ≡ false }
        ensures { OnOk result (built self.new ≡ put name.now (view value) (built self.old)) }
    {
        serde_json::put(&mut self.members, self.alloc, name, value)?;
        Ok(())
    }

    /// Puts a number in.
    pub fn put_number(&mut self, name: &str, n: u64) -> Result<(), Memory>
        ensures { OnOk result (built self.new ≡ put name.now (whole n) (built self.old)) }
    {
        self.put(name, Value::from(n))
    }

    /// Puts a text in.
    pub fn put_text(&mut self, name: &str, text: &str) -> Result<(), Memory>
        ensures { OnOk result (built self.new ≡ put name.now (string text.now) (built self.old)) }
    {
        let value = Value::try_from_str(self.alloc, text)?;
        self.put(name, value)
    }

    /// Puts true or false in.
    pub fn put_bool(&mut self, name: &str, is: bool) -> Result<(), Memory>
        ensures { OnOk result (built self.new ≡ put name.now (boolean is) (built self.old)) }
    {
        self.put(name, Value::from(is))
    }

    /// Puts null in.
    pub fn put_null(&mut self, name: &str) -> Result<(), Memory>
        ensures { OnOk result (built self.new ≡ put name.now null (built self.old)) }
    {
        self.put(name, Value::Null)
    }

    /// Puts a list in.
    pub fn put_list(&mut self, name: &str, values: Vec<Value>) -> Result<(), Memory>
        requires { items_have_float (items_view values.items) ≡ false }
        ensures { OnOk result (built self.new ≡ put name.now (array (items_view values.items)) (built self.old)) }
    {
        self.put(name, Value::from(values))
    }

    /// Puts a list of numbers in.
    #[tactic(auto, using(crate::proofs::Wholes::no_float))]
    pub fn put_u16s(&mut self, name: &str, list: &[u16]) -> Result<(), Memory>
        ensures { OnOk result (built self.new ≡ put name.now (array (wholes list.now)) (built self.old)) }
    {
        let values = of_u16s(self.alloc, list)?;
        self.put_list(name, values)
    }

    /// Puts a list of numbers in.
    #[tactic(auto, using(crate::proofs::Wholes::no_float))]
    pub fn put_u32s(&mut self, name: &str, list: &[u32]) -> Result<(), Memory>
        ensures { OnOk result (built self.new ≡ put name.now (array (wholes list.now)) (built self.old)) }
    {
        let values = of_u32s(self.alloc, list)?;
        self.put_list(name, values)
    }

    /// Puts link sets in, each as the number of its bitmap.
    #[tactic(auto, using(crate::proofs::Wholes::no_float))]
    pub fn put_sets(&mut self, name: &str, sets: &[LinkSet]) -> Result<(), Memory>
        ensures { OnOk result (built self.new ≡ put name.now (array (wholes sets.now)) (built self.old)) }
    {
        let values = of_sets(self.alloc, sets)?;
        self.put_list(name, values)
    }

    /// Puts the IDs of a set's links in.
    #[tactic(auto, using(crate::proofs::Wholes::no_float))]
    pub fn put_links(&mut self, name: &str, set: LinkSet) -> Result<(), Memory>
        ensures { OnOk result (built self.new ≡ put name.now (array (wholes (ids_of set))) (built self.old)) }
    {
        let values = of_links(self.alloc, set)?;
        self.put_list(name, values)
    }

    /// Puts the maximal runs of positions in, each by its first and its last.
    #[tactic(auto, using(crate::proofs::Wholes::no_float_in_runs))]
    pub fn put_runs(&mut self, name: &str, first: u32, rest: &[u32]) -> Result<(), Memory>
        ensures { OnOk result (built self.new ≡ put name.now (array (runs_data (runs (first ∷ rest.now)))) (built self.old)) }
    {
        let values = of_runs(self.alloc, first, rest)?;
        self.put_list(name, values)
    }

    /// Puts an object in.
    pub fn put_object(&mut self, name: &str, inner: Object) -> Result<(), Memory>
        ensures { OnOk result (built self.new ≡ put name.now (object (built inner)) (built self.old)) }
    {
        self.put(name, Value::from(inner.members))
    }

    /// The object in compact form.
    pub fn into_text(self) -> Result<String, Memory>
        ensures { IfOk result (λ text. string_bytes text ≡ compact_text (object (built self))) }
    {
        let Object { alloc, members } = self;
        let text = Value::from(members).to_string(alloc)?;
        Ok(text)
    }
}
