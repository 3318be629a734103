// Marks: the annotations that stand round a character or an inline leaf.
use crate::{Attrs, ListOf, Memory, Same, Text, TryCopy};
use std::alloc::Global;

/// One annotation: its tag with its attributes.
#[derive(Drop)]
pub struct Mark {
    pub tag: Text,
    pub attrs: Attrs,
}

/// A list of marks, the outermost first.
pub type Marks = ListOf<Mark>;

impl TryCopy for Mark {
    fn copy(&self, alloc: Global) -> Result<Mark, Memory> {
        Ok(Mark {
            tag: self.tag.copy(alloc)?,
            attrs: self.attrs.copy(alloc)?,
        })
    }
}

impl Same for Mark {
    fn same(&self, other: &Mark) -> bool {
        self.tag.same(&other.tag) && self.attrs.same(&other.attrs)
    }
}
