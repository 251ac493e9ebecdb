// Which objects are reachable.
ghost use Rattle.std.specs.Prelude.{◌≤◌};
ghost use Rattle.model.specs.Walks.{work};

use crate::object::{Field, Object, Value};
use std::alloc::{AllocError, Global};

/// A walk: what it has seen, and the seen objects whose names it has not followed yet.
#[derive(Drop)]
pub struct Walk {
    // a flag beside each object, which `zip` pairs with it: a set of positions would be asked for each object, and be no plainer
    seen: Vec<bool>,
    pending: Vec<usize>,
}

impl Walk {
    /// A walk among so many objects, none of them seen.
    fn among(heap: Global, objects: usize) -> Result<Walk, AllocError> {
        let seen = vec![in heap; false; objects]?;
        Ok(Walk {
            seen,
            pending: Vec::new(heap),
        })
    }

    /// Notes an object that is named.
    fn meet(&mut self, object: usize) -> Result<(), AllocError>
        ensures { work self.new ≤ work self.old }
    {
        if object < self.seen.len() && !self.seen[object] {
            self.seen[object] = true;
            self.pending.push(object)?;
        }
        Ok(())
    }

    fn meet_value(&mut self, value: Value) -> Result<(), AllocError>
        ensures { work self.new ≤ work self.old }
    {
        match value {
            Value::Object(object) => self.meet(object),
            Value::Empty | Value::Number(_) => Ok(()),
        }
    }

    /// Notes all that the value fields name.
    fn meet_fields(&mut self, fields: &[Field]) -> Result<(), AllocError>
        ensures { work self.new ≤ work self.old }
    {
        for field in fields {
            if let Field::Value(value) = field {
                self.meet_value(*value)?;
            }
        }
        Ok(())
    }

    /// Notes all that the object names.
    fn follow(&mut self, object: &Object) -> Result<(), AllocError>
        ensures { work self.new ≤ work self.old }
    {
        match object {
            Object::Record(it) => {
                self.meet(it.layout)?;
                self.meet_fields(&it.fields)
            }
            Object::Layout(it) => self.meet(it.map),
            Object::Map(it) => {
                self.meet_value(it.name)?;
                self.meet_value(it.parent)
            }
        }
    }

    fn meet_handles(&mut self, handles: &[Value; 32]) -> Result<(), AllocError> {
        for value in handles {
            self.meet_value(*value)?;
        }
        Ok(())
    }
}

/// For each object whether it can be reached: from a handle, or from another that can.
pub fn reachable(
    heap: Global,
    handles: &[Value; 32],
    objects: &[Object],
) -> Result<Vec<bool>, AllocError> {
    let mut walk = Walk::among(heap, objects.len())?;
    walk.meet_handles(handles)?;
    while let Some(next) = walk.pending.pop() {
        if let Some(object) = objects.get(next) {
            walk.follow(object)?;
        }
    }
    let Walk { seen, pending: _ } = walk;
    Ok(seen)
}
