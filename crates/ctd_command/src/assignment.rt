//! SET and UNSET.
ghost use Rattle.std.specs.Prelude.{◌≡◌, fold, map, Ok};
ghost use Rattle.ctd_program.specs.calls.View.{assignment};
ghost use Rattle.ctd_store.specs.Store.{unset};
ghost use Rattle.ctd_command.specs.Commands.{give_value, set, unset_all};
ghost use Rattle.ctd_command.specs.calls.Performs.{IsSound, Performs};

use crate::failure::CommandFailure;
use crate::machine::Run;
use ctd_program::Assignment;
use ctd_source::Source;
use ctd_token::Name;
use ctd_value::{Store, set_expression};

/// Removes from each name all that was assigned to it.
fn unset_names(names: &[Name], store: &mut Store)
    ensures { store.new ≡ fold unset store.old names.now }
{
    for name in names {
        store.unset(name);
    }
}

impl<'d, D: Source> Run<'d, D> {
    /// SET: one assignment after the other.
    #[inline(never)]
    pub fn set(&mut self, assignments: &[Assignment]) -> Result<(), CommandFailure>
        requires sound { IsSound self.old }
        ensures performs { Performs self.old self.new result (set (map assignment assignments.now)) }
    {
        for assignment in assignments {
            self.give_value(assignment)?;
        }
        Ok(())
    }

    /// Evaluates an expression and then the indices of its variable, which gets the value.
    fn give_value(&mut self, a: &Assignment) -> Result<(), CommandFailure>
        requires sound { IsSound self.old }
        ensures performs { Performs self.old self.new result (give_value (assignment a.now)) }
    {
        set_expression(self.alloc, &a.target, &a.value, &mut self.store)?;
        Ok(())
    }

    /// UNSET: each name loses all that was assigned to it.
    #[inline(never)]
    pub fn unset(&mut self, names: &[Name])
        requires sound { IsSound self.old }
        ensures performs { Performs self.old self.new (Ok tt) (unset_all names.now) }
    {
        unset_names(names, &mut self.store);
    }
}
