//! Steps with the number of the items that they leave.
ghost use Rattle.std.specs.Prelude.{IfOk};
ghost use Rattle.shift_steps.specs.Items.{IsPushed};

use sqlite_items::Items;
use std::alloc::AllocError;
use tac_cert::Step;

/// Steps, and how many items there are after them.
#[derive(Drop)]
pub(crate) struct Trace {
    pub steps: Items<Step>,
    pub count: u32,
}

impl Trace {
    /// Puts a step that gives one item at the end, and tells the number of that item.
    pub(crate) fn push(&mut self, step: Step) -> Result<u32, AllocError>
        ensures { IfOk result (IsPushed self.old self.new step) }
    {
        if self.count == u32::MAX {
            return Err(AllocError);
        }
        self.steps.push(step)?;
        self.count += 1;
        Ok(self.count)
    }
}
